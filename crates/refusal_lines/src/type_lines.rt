// The lines of scripts whose names, arguments or types are wrong.
ghost use Rattle.std.specs.Prelude.{◌≡◌, ◌++◌, IfOk, codes, string_bytes};
ghost use Rattle.refusal_lines.specs.Lines.{type_line};
ghost use Rattle.refusal_lines.specs.Forms.{at_token as token_form};

use crate::forms::{at_statement, at_token};
use liq_base::Memory;
use std::alloc::Global;
use typing_rules::TypeFault;

/// The line that is printed for a script whose names, arguments or types are wrong. For want of memory it is empty.
pub fn type_line(alloc: Global, fault: &TypeFault) -> Result<String, Memory>
    ensures { IfOk result (λ line. string_bytes line ≡ type_line fault.now) }
{
    match fault {
        TypeFault::UnknownName { stmt, at } => {
            at_token(alloc, "E08", *stmt, "unknown name", *at)
        }
        TypeFault::MissingArgument { stmt, at, label } => {
            missing(alloc, *stmt, *at, label.as_str())
        }
        TypeFault::ExtraArgument { stmt, at } => {
            at_token(alloc, "E10", *stmt, "extra argument", *at)
        }
        TypeFault::RepeatedName { stmt, at } => {
            at_token(alloc, "E11", *stmt, "repeated name", *at)
        }
        TypeFault::TypeClash { stmt } => at_statement(alloc, "E12", *stmt, "types clash"),
        TypeFault::Memory => Ok(String::new(alloc)),
    }
}

// The line for a call that lacks the argument with this label, in statement number `statement`.
// `token` is the number of the token that names what is called.
fn missing(alloc: Global, statement: u32, token: u32, label: &str) -> Result<String, Memory>
    ensures { IfOk result (λ line. string_bytes line
        ≡ token_form (codes "E09") statement (codes "missing argument " ++ label.now) token) }
{
    let text = format!(in alloc; "missing argument {label}")?;
    at_token(alloc, "E09", statement, &text, token)
}
