// What a line of a fault names.
ghost use Rattle.std.specs.Prelude.{◌≡◌, IfSome, Some};
ghost use Rattle.script_places.specs.Naming.{IsNamed, IsNamedBy};
ghost use Rattle.script_places.specs.declared.named.Named.{Named};

use crate::forms::{Form, form_of};
use crate::numbers::{number_at_end, number_in_front};
use crate::place::behind;

/// A place that a line names.
#[derive(Clone, Copy, Debug, PartialEq, Eq)]
pub enum Named {
    /// The byte of this number, from 0.
    Byte(u64),

    /// The token of this number, from 0.
    Token(u64),

    /// The statement of this number, from 1.
    Statement(u64),

    /// The source of this number, from 0, in the order in which evaluation makes them.
    Source(u64),

    /// What in the statement of this number, from 1, fits no types.
    Clash(u64),

    /// A text of the script, which stands in the line from this byte up to another.
    Text { start: usize, end: usize },

    /// What leaves the output of this name without a sound; the name stands in the line so.
    Fallible { start: usize, end: usize },
}

/// The place of the script that a line of a fault names, by the number of the fault or the words of a line of
/// `week_program`: a byte, a token, a statement, a source or a text. `docs/faults.md` and `docs/formats.md` have the
/// forms. `None` where the line is none of them.
pub fn named_in(line: &str) -> Option<Named>
    ensures found { IfSome result (IsNamed line.now) }
    ensures only { (named : Named) → IsNamed line.now named → result ≡ Some named }
{
    let line = line.as_bytes();
    named_by(form_of(line), line)
}

// The place of the script that a line of a fault names, by the form of the line: the number at its end or behind its
// first words, or the text within it; `None` where it has none. The first words are skipped by their length, such as 14
// for `E13 statement `.
fn named_by(form: Form, line: &[u8]) -> Option<Named>
    ensures found { IfSome result (IsNamedBy form line.now) }
    ensures only { (named : Named) → IsNamedBy form line.now named → result ≡ Some named }
{
    match form {
        Form::Byte => Some(Named::Byte(number_at_end(line, b" at ")?)),
        Form::Token => Some(Named::Token(number_at_end(line, b" at token ")?)),
        Form::Clash => Some(Named::Clash(number_in_front(behind(line, 14), b':')?)),
        Form::Statement => Some(Named::Statement(number_in_front(behind(line, 14), b':')?)),
        Form::Source => Some(Named::Source(number_in_front(behind(line, 11), b' ')?)),
        Form::Crossfade => Some(Named::Source(number_in_front(behind(line, 14), b' ')?)),
        Form::Switch => Some(Named::Source(number_in_front(behind(line, 7), b':')?)),
        Form::Text { start, after } => Some(Named::Text {
            start,
            end: line.len().saturating_sub(after),
        }),
        Form::Fallible => Some(Named::Fallible {
            start: 20,
            end: line.len(),
        }),
        Form::Nothing => None,
    }
}
