// Why a script is refused, and its line.
ghost use Rattle.std.specs.Prelude.{◌≡◌, IfOk, string_bytes};
ghost use Rattle.refusal_lines.specs.Lines.{line_of, script_line, station_line};

use crate::clock_lines::clock_line;
use crate::file_lines::file_line;
use crate::forms::{of_name, plain};
use crate::plan_lines::plan_line;
use crate::replay_lines::{ReplayFault, replay_line};
use crate::text_lines::{syntax_line, token_line};
use crate::type_lines::type_line;
use liq_base::{Memory, Text};
use script_plan::ScriptFault;
use stations::StationFault;
use std::alloc::Global;

/// Why a script is refused. `docs/faults.md` has the line of each.
#[derive(Debug, Drop)]
pub enum Fault {
    /// The file of the script is not there.
    NoScript,

    /// The script has no plan.
    Script(ScriptFault),

    /// Two files of the rendering would have this name: a cue file and an output, or the trace and one of these.
    SameFile(Text),

    /// Its plan is not rendered.
    Station(StationFault),

    /// The trace of a replay is not rendered again.
    Replay(ReplayFault),
}

impl Fault {
    /// The line of a refusal that is written to standard error, with its line end.
    /// Want of memory and a read that failed are no refusals, so their line is empty.
    pub fn line(&self, alloc: Global) -> Result<String, Memory>
        ensures { IfOk result (λ line. string_bytes line ≡ line_of self.now) }
    {
        match self {
            Fault::NoScript => plain(alloc, "E01 no script"),
            Fault::Script(fault) => script_line(alloc, fault),
            Fault::SameFile(name) => of_name(alloc, "E18 two outputs", name.as_str()),
            Fault::Station(fault) => station_line(alloc, fault),
            Fault::Replay(fault) => replay_line(alloc, fault),
        }
    }
}

// The line that is printed for a script that has no plan, by the step that failed. For want of memory it is empty.
fn script_line(alloc: Global, fault: &ScriptFault) -> Result<String, Memory>
    ensures { IfOk result (λ line. string_bytes line ≡ script_line fault.now) }
{
    match fault {
        ScriptFault::Lex(fault) => token_line(alloc, *fault),
        ScriptFault::Parse(fault) => syntax_line(alloc, *fault),
        ScriptFault::Type(fault) => type_line(alloc, fault),
        ScriptFault::Eval(fault) => plan_line(alloc, fault),
        ScriptFault::Memory => Ok(String::new(alloc)),
    }
}

// The line that is printed for a plan that cannot be rendered: for its files, its clocks or an output.
// For want of memory and a read that failed it is empty.
fn station_line(alloc: Global, fault: &StationFault) -> Result<String, Memory>
    ensures { IfOk result (λ line. string_bytes line ≡ station_line fault.now) }
{
    match fault {
        StationFault::Files(fault) => file_line(alloc, fault),
        StationFault::FallibleOutput(name) => of_name(alloc, "E25 fallible output", name.as_str()),
        StationFault::Clocks(fault) => clock_line(alloc, fault),
        StationFault::OutputTooLong(name) => of_name(alloc, "E29 output too long", name.as_str()),
    }
}
