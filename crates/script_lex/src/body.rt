// The bytes of a text.
ghost use Rattle.std.specs.Prelude.{◌≡◌, ◌≤◌, length, IfOk};
ghost use Rattle.script_lex.specs.Reading.{body_end, unescaped};

use crate::spans::{is_escapable, is_inner};
use liq_base::Memory;
use std::alloc::Global;

/// Why the bytes of a text stop.
#[derive(Clone, Copy)]
pub enum BodyEnd {
    /// At the closing quote.
    Closed,
    /// At a byte that may not stand in a text.
    Broken,
    /// At the end of the script.
    Cut,
}

/// Why the bytes of a text with this quote stop, and the bytes from there on: from the closing quote, or from the byte
/// that may not stand there or its backslash, or those left where the script ends. `bytes` begins behind the opening
/// quote.
pub fn body_end(quote: u8, bytes: &[u8]) -> (BodyEnd, &[u8])
    ensures stop { (result.0, result.1.now) ≡ body_end quote bytes.now }
    ensures shorter { length result.1.now ≤ length bytes.now }
{
    let mut rest = bytes;
    while let [first, after @ ..] = rest {
        if *first == quote {
            return (BodyEnd::Closed, rest);
        }
        if *first == b'\\' {
            match after {
                [] => return (BodyEnd::Cut, rest),
                [second, behind @ ..] => {
                    if !is_escapable(*second) {
                        return (BodyEnd::Broken, rest);
                    }
                    rest = behind;
                }
            }
        } else if is_inner(*first) {
            rest = after;
        } else {
            return (BodyEnd::Broken, rest);
        }
    }
    (BodyEnd::Cut, rest)
}

/// The characters, as bytes, that the bytes between the quotes of a text stand for: an escape is the byte behind its
/// backslash.
pub fn unescaped(alloc: Global, body: &[u8]) -> Result<Vec<u8>, Memory>
    ensures { IfOk result (λ v. v.items ≡ unescaped body.now) }
{
    let mut made = Vec::new(alloc);
    let mut rest = body;
    while let [first, after @ ..] = rest {
        if *first == b'\\' {
            match after {
                [] => break,
                [second, behind @ ..] => {
                    made.push(*second)?;
                    rest = behind;
                }
            }
        } else {
            made.push(*first)?;
            rest = after;
        }
    }
    Ok(made)
}
