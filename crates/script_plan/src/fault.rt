// Why a text is no script with a plan.
ghost use Rattle.std.specs.Prelude.{◌≡◌};

use script_lex::LexFault;
use script_parse::ParseFault;
use script_values::EvalFault;
use typing_rules::TypeFault;

/// The fault of a text, of the stage that tells it. A later stage is asked only where the earlier ones have no fault,
/// so a text has one fault at most. Want of memory is `Memory`, never the variant of that name within another fault.
#[derive(Debug, Drop)]
pub enum ScriptFault {
    /// The text is too long, or has no tokens.
    Lex(LexFault),

    /// The tokens are no script.
    Parse(ParseFault),

    /// A name, an argument or a type of the script is wrong.
    Type(TypeFault),

    /// The script's evaluation ends without a plan.
    Eval(EvalFault),

    /// Memory was refused.
    Memory,
}

impl From<LexFault> for ScriptFault {
    ghost use Rattle.script_plan.specs.Stages.{lexical};

    ghost from_gives = { λ fault e. e ≡ lexical fault };

    // A fault of tokens as that of the text; want of memory is `Memory` at every stage.
    fn from(fault: LexFault) -> Self {
        match fault {
            LexFault::Memory => ScriptFault::Memory,
            other => ScriptFault::Lex(other),
        }
    }
}

impl From<ParseFault> for ScriptFault {
    ghost use Rattle.script_plan.specs.Stages.{syntactic};

    ghost from_gives = { λ fault e. e ≡ syntactic fault };

    // A fault of the tree as that of the text; want of memory is `Memory` at every stage.
    fn from(fault: ParseFault) -> Self {
        match fault {
            ParseFault::Memory => ScriptFault::Memory,
            other => ScriptFault::Parse(other),
        }
    }
}

impl From<TypeFault> for ScriptFault {
    ghost use Rattle.script_plan.specs.Stages.{of_typing};

    ghost from_gives = { λ fault e. e ≡ of_typing fault };

    // A fault of names and types as that of the text; want of memory is `Memory` at every stage.
    fn from(fault: TypeFault) -> Self {
        match fault {
            TypeFault::Memory => ScriptFault::Memory,
            other => ScriptFault::Type(other),
        }
    }
}

impl From<EvalFault> for ScriptFault {
    ghost use Rattle.script_plan.specs.Stages.{of_evaluation};

    ghost from_gives = { λ fault e. e ≡ of_evaluation fault };

    // A fault of evaluation as that of the text; want of memory is `Memory` at every stage.
    fn from(fault: EvalFault) -> Self {
        match fault {
            EvalFault::Memory => ScriptFault::Memory,
            other => ScriptFault::Eval(other),
        }
    }
}
