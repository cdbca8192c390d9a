// What a plan writes, and the buffers between its clocks.
ghost use Rattle.std.specs.Prelude.{◌≡◌};
ghost use Rattle.plan_core.specs.Plans.{is_output};

use liq_base::Text;

/// A sink of a plan.
#[derive(Debug, Drop)]
pub enum SinkPlan {
    /// A node is written to the file of this name. `fallible` says that it may offer nothing, and `wide` that its
    /// samples have 24 bits, and not 16.
    Output {
        name: Text,
        node: u32,
        fallible: bool,
        wide: bool,
    },

    /// A node's cells are given to the buffer of this number.
    Feed {
        buffer: u32,
        node: u32,
    },
}

impl SinkPlan {
    /// Whether a sink of a plan is an output to a file, and no feed of a buffer.
    pub fn is_output(&self) -> bool
        ensures { result ≡ is_output self.now }
    {
        match self {
            SinkPlan::Output { .. } => true,
            SinkPlan::Feed { .. } => false,
        }
    }
}

/// A buffer of a plan.
#[derive(Clone, Copy, Debug, PartialEq, Eq)]
pub struct BufferPlan {
    /// How many samples its reader holds before it plays, at most `MAX_PREFILL`; 0 counts as 1.
    pub pre: u64,

    /// How many chunks it holds, from 1 to `MAX_CAPACITY`.
    pub capacity: u32,
}
