// Why a script has no plan.
ghost use Rattle.std.specs.Prelude.{◌≡◌, ◌≢◌, Some};
ghost use Rattle.script_values.specs.declared.fault.Stop.TheVariants as faults;
ghost use Rattle.script_values.specs.Faults.{fault_in};

use liq_base::{Memory, Text};
use std::alloc::{AllocError, AllocFailed};
use thiserror::Error;

/// A limit of the language.
#[derive(Clone, Copy, Debug, PartialEq, Eq, Error)]
pub enum Limit {
    /// Calls of defs that run at one time: 16.
    #[error("calls that run at one time")]
    Calls,

    /// Outputs of a script: 64.
    #[error("outputs")]
    Outputs,

    /// Children of a node: 65535.
    #[error("children of a source")]
    Children,

    /// Crossfades on a path down through children: 4.
    #[error("crossfades on a path")]
    Crossfades,

    /// An overlap of a crossfade: 4194304 samples.
    #[error("overlap of a crossfade")]
    Overlap,

    /// The prefill of a buffer: 4194304 samples.
    #[error("prefill of a buffer")]
    Prefill,

    /// The capacity of a buffer: 65536 chunks.
    #[error("capacity of a buffer")]
    Capacity,
}

/// Why a script has no plan. Statements are counted from 1, tokens from 0.
#[derive(Debug, Drop, Error)]
pub enum EvalFault {
    /// A setting that may not stand there, or with a value that it may not have.
    #[error("bad setting in statement {}", .stmt)]
    BadSetting { stmt: u32 },

    /// A bad value, at the token of a call's name, of an operator or of `%wav`.
    #[error("bad value in statement {} at token {}", .stmt, .at)]
    BadValue { stmt: u32, at: u32 },

    /// The work is more than a script may cost.
    #[error("too much work in statement {}", .stmt)]
    TooMuchWork { stmt: u32 },

    /// There would be more nodes than a plan may have.
    #[error("too many sources")]
    TooManySources,

    /// The script ends without an output.
    #[error("no output")]
    NoOutput,

    /// An earlier output has this name.
    #[error("two outputs {}", .0.as_str())]
    SameOutput(Text),

    /// A limit is passed.
    #[error("too large: {}", .0)]
    TooLarge(Limit),

    /// Memory was refused.
    #[error("out of memory")]
    Memory,
}

/// Why evaluation ends within a statement.
#[derive(Debug, Drop)]
pub enum Stop {
    /// Memory was refused.
    Memory,

    /// A setting that may not stand here, or with a value that it may not have.
    BadSetting,

    /// A bad value, at this token.
    BadValue(u32),

    /// The work is more than a script may cost.
    TooMuchWork,

    /// As many nodes as a plan may have are there.
    TooManySources,

    /// An earlier output has this name.
    SameOutput(Text),

    /// A limit is passed.
    TooLarge(Limit),

    /// A value of another type than the script's typing gives it. No typed script comes to this.
    Stuck,
}

impl From<Memory> for Stop {
    ghost from_gives = { λ _ e. e ≡ faults.Memory };

    // Makes want of memory a reason to stop evaluation.
    fn from(_refused: Memory) -> Stop {
        Stop::Memory
    }
}

impl From<AllocError> for Stop {
    ghost from_gives = { λ _ e. e ≡ faults.Memory };

    // Makes an allocation that was refused a reason to stop evaluation.
    fn from(_refused: AllocError) -> Stop {
        Stop::Memory
    }
}

impl<T: Drop> From<AllocFailed<T>> for Stop {
    ghost from_gives = { λ _ e. e ≡ faults.Memory };

    // Makes an allocation that was refused a reason to stop evaluation; the value that it hands back is dropped.
    fn from(_refused: AllocFailed<T>) -> Stop {
        Stop::Memory
    }
}

/// The fault of a script whose statement `stmt`, counted from 1, ends with this stop. `None` for a value of a wrong
/// type, which no typed script comes to.
pub fn fault_in(stmt: u32, fault: Stop) -> Option<EvalFault>
    ensures { result ≡ fault_in stmt fault }
{
    match fault {
        Stop::Memory => Some(EvalFault::Memory),
        Stop::BadSetting => Some(EvalFault::BadSetting { stmt }),
        Stop::BadValue(at) => Some(EvalFault::BadValue { stmt, at }),
        Stop::TooMuchWork => Some(EvalFault::TooMuchWork { stmt }),
        Stop::TooManySources => Some(EvalFault::TooManySources),
        Stop::SameOutput(name) => Some(EvalFault::SameOutput(name)),
        Stop::TooLarge(limit) => Some(EvalFault::TooLarge(limit)),
        Stop::Stuck => None,
    }
}
