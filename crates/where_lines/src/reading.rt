// Texts that have no tokens, and tokens that are no script.
ghost use Rattle.std.specs.Prelude.{◌≡◌, ◌≢◌, None, IfOk};
ghost use Rattle.script_lex.specs.declared.token.LexFault.TheVariants as lex_fault;
ghost use Rattle.script_parse.specs.declared.fault.ParseFault.TheVariants as parse_fault;

use liq_base::Memory;
use script_lex::LexFault;
use script_parse::ParseFault;

/// The place that is told in a text that has no tokens, for the fault `told`: none. Where memory was refused, it is not
/// known whether the text has tokens, and that is the error.
pub fn no_tokens(told: &LexFault) -> Result<Option<usize>, Memory>
    ensures nothing { IfOk result (λ at. at ≡ None) }
    ensures fault { IfOk result (λ at. told.now ≢ lex_fault.Memory) }
{
    match told {
        LexFault::BadByte(_) => Ok(None),
        LexFault::UnclosedString(_) => Ok(None),
        LexFault::NumberTooLarge(_) => Ok(None),
        LexFault::TextTooLong => Ok(None),
        LexFault::Memory => Err(Memory),
    }
}

/// The place that is told in a text whose tokens are no script, for the fault `told`: none. Where memory was refused,
/// it is not known whether they are one, and that is the error.
pub fn no_script(told: &ParseFault) -> Result<Option<usize>, Memory>
    ensures nothing { IfOk result (λ at. at ≡ None) }
    ensures fault { IfOk result (λ at. told.now ≢ parse_fault.Memory) }
{
    match told {
        ParseFault::Syntax(_) => Ok(None),
        ParseFault::TooDeep(_) => Ok(None),
        ParseFault::Memory => Err(Memory),
    }
}
