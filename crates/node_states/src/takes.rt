// What the reader of a buffer takes at the start of a tick of its clock.
ghost use Rattle.std.specs.Prelude.{◌≡◌, ◌<◌, ℕ, List, OnOk, OnErr};
ghost use Rattle.frame_core.specs.Library.{Sounds};
ghost use Rattle.node_states.specs.States.{Fits};
ghost use Rattle.node_states.specs.Takes.{HasBegun, HasHeld, HasTaken, HasTakenSome, IsTaken};

use crate::NodeState;
use frame_core::Taps;
use liq_base::Memory;
use op_leaf::ReaderState;

impl NodeState {
    /// Lets a reader take chunks from its buffer, number `buffer` of `taps`, and begin a tick; other nodes do nothing.
    /// If memory is refused, some of these takes were made, and the tick is not begun.
    pub fn take<T: Taps>(&mut self, buffer: u32, taps: &mut T) -> Result<(), Memory>
        requires { buffer < T.buffers taps.old }
        ensures buffers { T.buffers taps.new ≡ T.buffers taps.old }
        ensures same { T.same taps.old taps.new }
        ensures fits { (library : Sounds) (children : ℕ) → Fits library children self.old
            → Fits library children self.new }
        ensures took { OnOk result (HasBegun T.stands buffer self.old self.new taps.old taps.new) }
        ensures stopped { OnErr result (HasTakenSome T.stands buffer self.old taps.old taps.new) }
    {
        match self {
            NodeState::Read(reader) => {
                take_all(reader, buffer, taps)?;
                Ok(())
            }
            NodeState::Leaf(_) => Ok(()),
            NodeState::Select(_) => Ok(()),
            NodeState::Turn(_) => Ok(()),
            NodeState::Mix(_) => Ok(()),
            NodeState::Cross(_) => Ok(()),
            NodeState::Idle => Ok(()),
        }
    }
}

// Takes from buffer number `buffer` all chunks that a reader takes at the start of a tick, and then begins the tick.
// After an `Err` some takes were made, and the tick is not begun.
fn take_all<T: Taps>(reader: &mut ReaderState, buffer: u32, taps: &mut T) -> Result<(), Memory>
    requires { buffer < T.buffers taps.old }
    ensures buffers { T.buffers taps.new ≡ T.buffers taps.old }
    ensures same { T.same taps.old taps.new }
    ensures took { OnOk result (HasTaken T.stands buffer reader.old reader.new taps.old taps.new) }
    ensures stopped { OnErr result (IsTaken T.stands buffer reader.old taps.old taps.new) }
{
    take_chunks(reader, buffer, taps)?;
    reader.begin();
    Ok(())
}

// Takes chunks from buffer number `buffer` while the reader wants one, at most until the buffer is found empty.
fn take_chunks<T: Taps>(reader: &mut ReaderState, buffer: u32, taps: &mut T) -> Result<(), Memory>
    requires { buffer < T.buffers taps.old }
    ensures buffers { T.buffers taps.new ≡ T.buffers taps.old }
    ensures same { T.same taps.old taps.new }
    ensures took { OnOk result (HasHeld T.stands buffer reader.old reader.new taps.old taps.new) }
    ensures stopped { OnErr result (IsTaken T.stands buffer reader.old taps.old taps.new) }
{
    while reader.wants() {
        let Some(chunk) = taps.take(buffer)? else {
            return Ok(());
        };
        reader.accept(chunk);
    }
    Ok(())
}
