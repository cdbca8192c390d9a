// The lines of scripts whose text cannot be read.
ghost use Rattle.std.specs.Prelude.{◌≡◌, IfOk, string_bytes};
ghost use Rattle.refusal_lines.specs.Lines.{syntax_line, token_line};

use crate::forms::{at_place, plain};
use liq_base::Memory;
use script_lex::LexFault;
use script_parse::ParseFault;
use std::alloc::Global;

/// The line that is printed for a script whose bytes are no tokens. For want of memory it is empty.
pub fn token_line(alloc: Global, fault: LexFault) -> Result<String, Memory>
    ensures { IfOk result (λ line. string_bytes line ≡ token_line fault) }
{
    match fault {
        LexFault::BadByte(at) => at_place(alloc, "E02 bad byte at", at),
        LexFault::UnclosedString(at) => at_place(alloc, "E03 string not closed at", at),
        LexFault::NumberTooLarge(at) => at_place(alloc, "E04 number too large at", at),
        LexFault::TextTooLong => plain(alloc, "E05 script too long"),
        LexFault::Memory => Ok(String::new(alloc)),
    }
}

/// The line that is printed for a script whose tokens follow no rule of the grammar. For want of memory it is empty.
pub fn syntax_line(alloc: Global, fault: ParseFault) -> Result<String, Memory>
    ensures { IfOk result (λ line. string_bytes line ≡ syntax_line fault) }
{
    match fault {
        ParseFault::Syntax(at) => at_place(alloc, "E06 syntax at token", at),
        ParseFault::TooDeep(at) => at_place(alloc, "E07 too deep at token", at),
        ParseFault::Memory => Ok(String::new(alloc)),
    }
}
