// The lines of traces that are not rendered again.
ghost use Rattle.std.specs.Prelude.{◌≡◌, IfOk, string_bytes};
ghost use Rattle.refusal_lines.specs.Lines.{replay_line};

use crate::forms::{at_line, of_name, plain};
use liq_base::{Memory, Text};
use std::alloc::Global;

/// Why a trace is not rendered again, in the order in which the faults are looked for: each comes only where the script
/// is accepted, and the trace has none of those before it. The line of each stands in `docs/faults.md`.
#[derive(Debug, Drop)]
pub enum ReplayFault {
    /// The file of this name is not there.
    NoTrace(Text),

    /// The file of this name has more than 268435456 bytes.
    TraceTooLarge(Text),

    /// The line of this number, from 0, is the first that is outside the form of a trace.
    NotATrace(u64),

    /// It has the form, and is not that of a lawful record of the script whose ticks can be ordered, over these ticks,
    /// this start and these files.
    DoesNotFit,
}

/// The line that is printed for a trace from which nothing can be rendered again. Each of these faults has one.
pub fn replay_line(alloc: Global, fault: &ReplayFault) -> Result<String, Memory>
    ensures { IfOk result (λ line. string_bytes line ≡ replay_line fault.now) }
{
    match fault {
        ReplayFault::NoTrace(name) => of_name(alloc, "E30 no trace", name.as_str()),
        ReplayFault::TraceTooLarge(name) => of_name(alloc, "E31 trace too large", name.as_str()),
        ReplayFault::NotATrace(line) => at_line(alloc, "E32 not a trace: line", *line),
        ReplayFault::DoesNotFit => plain(alloc, "E33 trace does not fit"),
    }
}
