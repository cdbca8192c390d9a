// Laws of the meaning. Each is a contract of a function that does nothing.
ghost use Rattle.std.specs.Prelude.{◌≡◌, ◌⊎◌, ℕ, ◌<◌, ◌++◌, Bool, List, [], Some, true, IsSome, length, slice_get};
ghost use Rattle.clock_infer.specs.declared.clock_map.ClockMap.{ClockMap as Map};
ghost use Rattle.clock_infer.specs.declared.clock_map.NodeClock.{NodeClock};
ghost use Rattle.liq_base.specs.declared.memory.Kind.{Kind as TheKind};
ghost use Rattle.op_leaf.specs.declared.leaf.Leaf.{Leaf as TheLeaf};
ghost use Rattle.op_leaf.specs.declared.leaf.Leaf.TheVariants.{Files as PlaysFiles};
ghost use Rattle.plan_core.specs.Plans.{AreNodes, HasChildren, IsWellFormed};
ghost use Rattle.plan_core.specs.declared.node.Op.{Op as TheOp};
ghost use Rattle.plan_core.specs.declared.node.Op.TheVariants.{Single as ASingle, Playlist as APlaylist};
ghost use Rattle.plan_core.specs.declared.node.Node.{Node as TheNode};
ghost use Rattle.plan_core.specs.declared.plan.Plan.{Plan as ThePlan};
ghost use Rattle.fallible_infer.specs.Infallible.{ByItself, ByNothing, IsMarking, rests_of};
ghost use Rattle.frame_core.specs.Slots.{Slot as TheSlot};
ghost use Rattle.op_turn.specs.declared.turn.Turn.{Turn as TheTurn};
ghost use Rattle.op_turn.specs.Turns.{past_of};
ghost use Rattle.stream_meaning.specs.Choices.{gave_over, turned};
ghost use Rattle.stream_meaning.specs.Operators.{Eligible, Picks, Plays, Reads, TakesTurns, work_of};
ghost use Rattle.stream_meaning.specs.Instants.{Setting, Moment, IsMeaning, clock_of, sub_of, stream_of};
ghost use Rattle.stream_meaning.specs.Instants.{first_instants, lies_in, work_at};
ghost use Rattle.stream_meaning.specs.Calls.{calls_of, calls_of_tick, fades_in, joined_upto, takes_at};
ghost use Rattle.stream_meaning.specs.Settings.{IsSetting, HasNoBuffers};
ghost use Rattle.stream_meaning.specs.Sinks.{gaps};

/// The sub-clocks of each setting (a plan and what it runs on) have slots, a cell or nothing at each instant, however
/// deep they nest: `sub_of` gives what their instants make.
pub fn sub_clocks_have_slots()
    ensures { (setting : Setting) (clocks : Map) → IsSetting setting clocks → IsMeaning setting (sub_of setting) }
{}

/// Whatever answers the buffers give, an infallible node offers a cell at every instant of its clock, so an output of
/// it has no gap.
pub fn infallible_nodes_offer()
    ensures cells { (setting : Setting) (clocks : Map) (mark : ℕ → Bool) (i n : ℕ) → IsSetting setting clocks
        → IsMarking setting.plan.nodes mark → i < length setting.plan.nodes → mark i ≡ true
        → IsSome (stream_of setting i n) }
    ensures gaps { (setting : Setting) (clocks : Map) (mark : ℕ → Bool) (i ticks : ℕ) → IsSetting setting clocks
        → IsMarking setting.plan.nodes mark → i < length setting.plan.nodes → mark i ≡ true
        → gaps setting i ticks ≡ 0 }
{}

/// A leaf and a reader of a buffer have no children, so no child decides whether they are infallible, that is, offer a
/// cell at every instant. A leaf that plays files is a single or a playlist.
pub fn leaves_stand_alone()
    ensures children { (rate i n : ℕ) (kind : TheKind) (op : TheOp) (leaf : TheLeaf)
        → work_of rate i kind op ≡ Plays leaf → HasChildren op n → n ≡ 0 }
    ensures rests { (rate i : ℕ) (kind : TheKind) (op : TheOp) (leaf : TheLeaf) → work_of rate i kind op ≡ Plays leaf
        → (rests_of op ≡ ByNothing) ⊎ (rests_of op ≡ ByItself) }
    ensures readers { (rate i buffer n : ℕ) (kind : TheKind) (op : TheOp) → work_of rate i kind op ≡ Reads buffer
        → HasChildren op n → (n ≡ 0) × (rests_of op ≡ ByNothing) }
    ensures files { (rate i j : ℕ) (kind k : TheKind) (op : TheOp) (again : Bool)
        → work_of rate i kind op ≡ Plays (PlaysFiles j again k)
        → (name : List ℕ) × ((op ≡ ASingle name) ⊎ (op ≡ APlaylist name again)) }
{}

/// What a rotate or a random chooses by at an instant comes from the instants at which it gave: the child that it used
/// last, and the number of its choices.
pub fn turns_go_by_choices()
    ensures { (setting : Setting) (sub : ℕ → ℕ
        → List TheSlot) (i n : ℕ) (node : TheNode) (turn : TheTurn) (eligible : Eligible)
        → AreNodes setting.plan.nodes → slice_get setting.plan.nodes i ≡ Some node
        → work_at setting i node ≡ Picks (TakesTurns turn) eligible
        → turned (first_instants setting sub (clock_of setting i) n) i
        ≡ past_of turn (gave_over (first_instants setting sub (clock_of setting i) n) i node.children) }
{}

/// The calls that an instant makes at buffers are the takes of its clock's readers, and then the calls of the instants
/// that its sub-clocks, one for each crossfade, make meanwhile.
pub fn calls_go_by_sub_clocks()
    ensures { (setting : Setting) (clocks : Map) → IsSetting setting clocks
        → (sub : ℕ → ℕ → List TheSlot) (clock : NodeClock) (past : List Moment)
        → calls_of setting sub clock past ≡ takes_at setting clock past
        ++ joined_upto (λ k. fades_in setting sub
        (λ j m. calls_of setting sub (NodeClock.Sub j) (first_instants setting sub (NodeClock.Sub j) m))
        (lies_in setting clock k) past
        k (slice_get setting.plan.nodes k)) (length setting.plan.nodes) }
{}

/// A plan without readers and feeds of buffers makes no calls at them in any tick, whatever the setting; a well-formed
/// plan that counts no buffer is one.
pub fn no_calls_without_buffers()
    ensures none { (setting : Setting) → HasNoBuffers setting.plan → (accepted : ℕ → Bool) (m t : ℕ)
        → calls_of_tick setting accepted m t ≡ [] }
    ensures plan { (plan : ThePlan) → IsWellFormed plan → plan.buffers ≡ [] → HasNoBuffers plan }
{}
