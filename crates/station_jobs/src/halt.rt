// Why a call ends early.
ghost use Rattle.std.specs.Prelude.{◌≡◌};

use liq_base::Memory;
use refusal_lines::Fault;
use script_plan::ScriptFault;
use station_check::CheckEnd;
use station_render::RenderFault;

/// Why a call ends without its report.
#[derive(Debug, Drop)]
pub enum CallEnd {
    /// The script is refused.
    Refused(Fault),

    /// A read failed.
    Read,

    /// A creation, an append to an output or a closing failed.
    Write,

    /// Memory was refused.
    Memory,
}

impl From<Memory> for CallEnd {
    ghost use Rattle.station_jobs.specs.declared.halt.CallEnd.TheVariants.{Memory as no_memory};

    ghost from_gives = { λ _ e. e ≡ no_memory };

    // Ends the call where memory was refused.
    fn from(_refused: Memory) -> Self {
        CallEnd::Memory
    }
}

impl From<ScriptFault> for CallEnd {
    ghost use Rattle.station_jobs.specs.Prepared.{halt_of_script};

    ghost from_gives = { λ fault e. e ≡ halt_of_script fault };

    // Ends the call where its script has no plan: refused for the fault, or for want of memory.
    fn from(fault: ScriptFault) -> Self {
        match fault {
            ScriptFault::Lex(fault) => CallEnd::Refused(Fault::Script(ScriptFault::Lex(fault))),
            ScriptFault::Parse(fault) => CallEnd::Refused(Fault::Script(ScriptFault::Parse(fault))),
            ScriptFault::Type(fault) => CallEnd::Refused(Fault::Script(ScriptFault::Type(fault))),
            ScriptFault::Eval(fault) => CallEnd::Refused(Fault::Script(ScriptFault::Eval(fault))),
            ScriptFault::Memory => CallEnd::Memory,
        }
    }
}

impl From<CheckEnd> for CallEnd {
    ghost use Rattle.station_jobs.specs.Prepared.{halt_of_check};

    ghost from_gives = { λ halt e. e ≡ halt_of_check halt };

    // Ends the call where its plan failed the check: refused for the fault, a failed read, or want of memory.
    fn from(halt: CheckEnd) -> Self {
        match halt {
            CheckEnd::Refused(fault) => CallEnd::Refused(Fault::Station(fault)),
            CheckEnd::Read => CallEnd::Read,
            CheckEnd::Memory => CallEnd::Memory,
        }
    }
}

impl From<RenderFault> for CallEnd {
    ghost use Rattle.station_jobs.specs.Prepared.{halt_of_render};

    ghost from_gives = { λ fault e. e ≡ halt_of_render fault };

    // Ends the call where its rendering broke off: a failed write, or want of memory.
    fn from(fault: RenderFault) -> Self {
        match fault {
            RenderFault::Write => CallEnd::Write,
            RenderFault::Memory => CallEnd::Memory,
        }
    }
}
