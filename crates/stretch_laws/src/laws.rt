// The laws of a stretch of instants. Each is the contract of a function that does nothing.
ghost use Rattle.std.specs.Prelude.{◌≡◌, ◌<◌, ◌≤◌, ◌+◌, ℕ, suc, true, Some, List, [], length, map, slice_get};
ghost use Rattle.clock_infer.specs.declared.clock_map.NodeClock.{NodeClock};
ghost use Rattle.frame_core.specs.Slots.{Slot as TheSlot, title_of, is_inner};
ghost use Rattle.op_cross.specs.Crossfade.{cross};
ghost use Rattle.op_cross.specs.Runs.{item_of, run_of};
ghost use Rattle.op_cross.specs.States.{AllInner, Crossing, IsCrossing, StandsFor, passes};
ghost use Rattle.op_leaf.specs.declared.leaf.Leaf.{Leaf as TheLeaf};
ghost use Rattle.op_leaf.specs.Leaves.{leaf_slot};
ghost use Rattle.op_leaf.specs.Readers.{read_by, reader_slot};
ghost use Rattle.plan_core.specs.Plans.{AreNodes};
ghost use Rattle.stream_meaning.specs.Arithmetic.{Mixing, mix_slot};
ghost use Rattle.stream_meaning.specs.Calls.{GoDown, calls_of, takes_at};
ghost use Rattle.stream_meaning.specs.Operators.{Choice, Eligible, Fades, Mixes, Picks, Plays, Reads};
ghost use Rattle.stream_meaning.specs.Instants.{Setting, Moment, IsMeaning, gives_before, crossfaded, gives};
ghost use Rattle.stream_meaning.specs.Instants.{first_instants, moment_after, offer, part_at, position, reading_after};
ghost use Rattle.stream_meaning.specs.Instants.{reading_at};
ghost use Rattle.stretch_laws.specs.Lanes.{NodeOver, first_over, gives_over, lane_over, work_over};
ghost use Rattle.stretch_laws.specs.Stretches.{AreFilled, AreQuiet, IsLike, IsOn, IsStretch, going_on, lane};

/// Over a stretch the demands, the picks of demanded nodes and who offers are those of its first instant, and no node
/// that gives begins a track after that. What a node goes by of the past counts on.
/// `sub` has the slots of each sub-clock, `past` the moments before, and `instants` says how long the stretch is.
pub fn stretches_stay_alike()
    ensures like { (setting : Setting) (sub : ℕ → ℕ
        → List TheSlot) (clock : NodeClock) (past : List Moment) (instants j : ℕ)
        → AreNodes setting.plan.nodes → IsStretch setting sub clock past instants → 0 < j → j < instants
        → IsLike (moment_after setting sub clock past)
        (moment_after setting sub clock (going_on setting sub clock j past)) }
    ensures on { (setting : Setting) (sub : ℕ → ℕ → List TheSlot) (clock : NodeClock) (past : List Moment)
        (instants j : ℕ)
        → AreNodes setting.plan.nodes → IsStretch setting sub clock past instants → j ≤ instants
        → IsOn setting sub clock past j (going_on setting sub clock j past) }
{}

/// What a node that gives offers over a stretch: a leaf its next cells, a crossfade its next items, a reader its next
/// cells, a node that chooses the cells of one child, and a mix what it makes of those of its children.
/// `over` is the node with its number `i` and the stretch, and `j` counts instants from the first.
pub fn stretches_have_lanes()
    ensures played { (over : NodeOver) (leaf : TheLeaf) (j : ℕ)
        → work_over over ≡ Plays leaf → j < over.instants → gives_over over ≡ true
        → lane_over over j over.i ≡ leaf_slot over.setting.library leaf (gives_before over.past over.i + j) }
    ensures faded { (over : NodeOver) (overlap j : ℕ)
        → work_over over ≡ Fades overlap → j < over.instants → gives_over over ≡ true
        → lane_over over j over.i ≡ item_of overlap (over.sub over.i) (position over.past over.i + j) }
    ensures read { (over : NodeOver) (buffer j : ℕ)
        → work_over over ≡ Reads buffer → 0 < j → j < over.instants → gives_over over ≡ true
        → lane_over over j over.i ≡ reader_slot (read_by j (reading_at over.setting buffer (length over.past)
        (reading_after over.setting over.i buffer over.past)).reader) }
    ensures mixed { (over : NodeOver) (mixing : Mixing) (j : ℕ) → work_over over ≡ Mixes mixing
        → lane_over over j over.i ≡ mix_slot mixing (map (lane_over over j) over.node.children) }
    ensures chosen { (over : NodeOver) (choice : Choice) (eligible : Eligible) (place child j : ℕ)
        → work_over over ≡ Picks choice eligible → 0 < j → j < over.instants → gives_over over ≡ true
        → (part_at (first_over over).parts over.i).pick ≡ Some place → slice_get over.node.children place ≡ Some child
        → lane_over over j over.i ≡ lane_over over j child }
{}

/// Over a stretch, which is a row of instants behind whose first nothing begins, a node that gives keeps its title.
/// `sub` has the slots of each sub-clock, `past` the moments before, and `instants` says how long the stretch is.
pub fn stretches_keep_titles()
    ensures { (setting : Setting) (sub : ℕ → ℕ → List TheSlot) (clock : NodeClock) (past : List Moment)
        (instants i j : ℕ)
        → AreNodes setting.plan.nodes → IsStretch setting sub clock past instants → j < instants
        → gives (moment_after setting sub clock past) i ≡ true
        → title_of (lane setting sub clock past j i) ≡ title_of (offer (moment_after setting sub clock past) i) }
{}

/// Over a stretch of a sub-clock, after its first instant, its crossfade is filled cells of one track and of one title.
/// `sub` has the slots of each sub-clock. The stretch is of sub-clock `k`, and begins behind its `first` instants.
pub fn sub_clocks_give_cells()
    ensures { (setting : Setting) (sub : ℕ → ℕ → List TheSlot) (k first instants n many : ℕ)
        → AreNodes setting.plan.nodes → IsMeaning setting sub
        → IsStretch setting sub (NodeClock.Sub k) (first_instants setting sub (NodeClock.Sub k) first) instants
        → gives (moment_after setting sub (NodeClock.Sub k) (first_instants setting sub (NodeClock.Sub k) first))
        (crossfaded setting.plan.nodes k) ≡ true
        → first < n → n + many ≤ first + instants
        → AreFilled setting sub k n many
        (title_of (offer (moment_after setting sub (NodeClock.Sub k)
        (first_instants setting sub (NodeClock.Sub k) first))
        (crossfaded setting.plan.nodes k))) }
{}

/// Where cells pass through a crossfade, each of its next items takes one slot more, and begins no track. They have the
/// titles of the cells that are held, and after these of those that are filled. `state` is the crossfade's after `n`
/// slots and `p` items, `many` slots are filled behind, and `below` is their title.
pub fn cells_pass_through()
    ensures run { (setting : Setting) (sub : ℕ → ℕ → List TheSlot) (k n many p j below : ℕ) (state : Crossing)
        → ((m : ℕ) → length (sub k m) ≡ m)
        → AreFilled setting sub k n many below → IsCrossing state → StandsFor state (sub k n) p → passes state ≡ true
        → AllInner state.cells
        → ((m : ℕ) → m < n → length (cross state.overlap (sub k m)) ≤ p) → j < many
        → run_of state.overlap (sub k) (p + j) ≡ n + suc j }
    ensures item { (setting : Setting) (sub : ℕ → ℕ → List TheSlot) (k n many p j below : ℕ) (state : Crossing)
        → ((m : ℕ) → length (sub k m) ≡ m)
        → AreFilled setting sub k n many below → IsCrossing state → StandsFor state (sub k n) p → passes state ≡ true
        → AllInner state.cells
        → ((m : ℕ) → m < n → length (cross state.overlap (sub k m)) ≤ p) → j < many
        → is_inner (item_of state.overlap (sub k) (p + j)) ≡ true }
    ensures titled { (setting : Setting) (sub : ℕ → ℕ
        → List TheSlot) (k n many rest p j title below : ℕ) (state : Crossing) → ((m : ℕ) → length (sub k m) ≡ m)
        → AreFilled setting sub k n many below → IsCrossing state → StandsFor state (sub k n) p → passes state ≡ true
        → AllInner state.cells
        → ((m : ℕ) → m < n → length (cross state.overlap (sub k m)) ≤ p)
        → rest ≤ many → ((i : ℕ) → i < rest → i < length state.cells → title_of (slice_get state.cells i) ≡ title)
        → (length state.cells < rest → below ≡ title)
        → j < rest → title_of (item_of state.overlap (sub k) (p + j)) ≡ title }
{}

/// After the first instant of a stretch no reader takes from its buffer. If the instants that its sub-clocks make for
/// it make no puts or takes, neither does it. `sub` has the slots of each sub-clock, `past` the moments before, and
/// `instants` says how long the stretch is.
pub fn stretches_make_no_calls()
    ensures takes { (setting : Setting) (sub : ℕ → ℕ
        → List TheSlot) (clock : NodeClock) (past : List Moment) (instants i : ℕ)
        → AreNodes setting.plan.nodes → IsStretch setting sub clock past instants → suc i < instants
        → takes_at setting clock (going_on setting sub clock (suc i) past) ≡ [] }
    ensures calls { (setting : Setting) (sub : ℕ → ℕ
        → List TheSlot) (clock : NodeClock) (past : List Moment) (instants i : ℕ)
        → AreNodes setting.plan.nodes → IsStretch setting sub clock past instants → suc i < instants
        → GoDown setting sub
        → AreQuiet setting sub clock past instants
        → calls_of setting sub clock (going_on setting sub clock (suc i) past) ≡ [] }
{}
