// A crossfade takes a run of its child's cells.
ghost use Rattle.std.specs.Prelude.{◌≡◌, ◌<◌, ◌≤◌, ◌+◌, ◌++◌, ◌∷◌, ℕ, List, [], suc, length, if◌then◌else◌};
ghost use Rattle.frame_core.specs.Library.{Sounds};
ghost use Rattle.frame_core.specs.Slots.{Slot as TheSlot};
ghost use Rattle.op_cross.specs.States.{track_room, wants as crossing_wants};
ghost use Rattle.op_leaf.specs.Lanes.{AreTitled, IsLane};
ghost use Rattle.stream_meaning.specs.Operators.{Work};
ghost use Rattle.stream_meaning.specs.Instants.{Setting, Moment};
ghost use Rattle.node_states.specs.Passing.{passes};
ghost use Rattle.node_states.specs.States.{Fits, StateStands, left, room};

use crate::NodeState;
use op_cross::CrossState;

impl NodeState {
    /// How many further cells of its child's running track a crossfade needs to know what it offers next.
    /// 0 if it knows already, and for other nodes.
    pub fn room(&self) -> u32
        ensures { result ≡ room self.now }
    {
        match self {
            NodeState::Cross(state) => room_of(state),
            _ => 0,
        }
    }

    /// Whether each further cell of a crossfade's child settles one item of it, so that cells pass through it one by
    /// one; false for other nodes.
    pub fn passes(&self) -> bool
        ensures { result ≡ passes self.now }
    {
        match self {
            NodeState::Cross(state) => state.passes(),
            _ => false,
        }
    }

    /// Gives a crossfade the next slots of its child: cells with the samples `lefts` and `rights` and this title.
    /// They go on with the child's running track, and are no more than it has `room` for. Other nodes are left alone.
    pub fn fill_stretch(&mut self, title: u32, lefts: &[i16], rights: &[i16])
        requires same { length rights.now ≡ length lefts.now }
        requires few { length lefts.now ≤ room self.old }
        ensures fits { (library : Sounds) (children : ℕ) → Fits library children self.old
            → Fits library children self.new }
        ensures filled { (setting : Setting) (sub : ℕ → ℕ
            → List TheSlot) (past : List Moment) (filled i : ℕ) (work : Work) (slots : ℕ → TheSlot)
            → StateStands setting sub past filled i work self.old → IsLane slots (length lefts.now) lefts.now rights.now
            → AreTitled slots (length lefts.now) title
            → ((m : ℕ) → m < length lefts.now → sub i (suc (filled + m)) ≡ sub i (filled + m) ++ slots m ∷ [])
            → StateStands setting sub past (filled + length lefts.now) i work self.new }
        ensures less { 0 < length lefts.now → left self.new < left self.old }
    {
        if let NodeState::Cross(state) = self {
            let wanting = state.wants();
            if wanting {
                state.fill_stretch(title, lefts, rights);
            }
        }
    }
}

// How many cells of a track that goes on a crossfade needs to know what it offers next; 0 if it knows already.
fn room_of(state: &CrossState) -> u32
    ensures { result ≡ (if crossing_wants state.now then track_room state.now else 0) }
{
    if state.wants() { state.room() } else { 0 }
}
