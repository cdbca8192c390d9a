// How a text is shown at a terminal.
ghost use Rattle.std.specs.Prelude.{◌≡◌, ◌<◌, ◌++◌, IfOk, OnOk, length};
ghost use Rattle.script_places.specs.Showing.{byte_shown, character_shown, digit, escape, has_control_next, is_control};
ghost use Rattle.script_places.specs.Showing.{is_hidden, is_marked, shown};

use crate::counting::width;
use liq_base::Memory;

/// The bytes of the byte order mark.
const MARK: [u8; 3] = [0xEF, 0xBB, 0xBF];

// Whether a byte is that of a control character other than a TAB, as it would drive a terminal: below 32, or from 127
// to 159.
fn is_control(byte: u8) -> bool
    ensures { result ≡ is_control byte }
{
    (byte < 32 && byte != b'\t') || (127 <= byte && byte < 160)
}

// Whether the second of these bytes is there and is a control byte other than a TAB. It is for characters of two bytes,
// whose second byte tells whether they are controls.
fn has_control_next(bytes: &[u8]) -> bool
    ensures { result ≡ has_control_next bytes.now }
{
    match bytes {
        [] => false,
        [_] => false,
        [_, next, ..] => is_control(*next),
    }
}

/// Whether a text begins with the byte order mark.
pub fn is_marked(bytes: &[u8]) -> bool
    ensures { result ≡ is_marked bytes.now }
{
    bytes.starts_with(MARK.as_slice())
}

// Whether these bytes begin with a character that is shown by its numbers: a control character other than a TAB, or the
// byte order mark. 194 begins the characters 128 to 191, so the control characters from 128 to 159.
#[tactic(auto, unfolding(crate::specs::Showing::is_hidden))]
fn is_hidden(bytes: &[u8]) -> bool
    ensures { result ≡ is_hidden bytes.now }
{
    match bytes {
        [] => false,
        [first, ..] => {
            is_control(*first) || (*first == 194 && has_control_next(bytes)) || is_marked(bytes)
        }
    }
}

// The hexadecimal digit, `0` to `9` or `a` to `f`, of a number below 16, as a byte.
fn digit(number: u8) -> u8
    requires { number < 16 }
    ensures { result ≡ digit number }
{
    if number < 10 {
        number + 48
    } else {
        number + 87
    }
}

// Appends a byte by its number: `\x` and two hexadecimal digits.
fn push_escape(out: &mut Vec<u8>, byte: u8) -> Result<(), Memory>
    ensures { OnOk result (out.new.items ≡ out.old.items ++ escape byte) }
{
    out.extend_from_slice(&[92, 120, digit(byte / 16), digit(byte % 16)])?;
    Ok(())
}

// Appends a byte of a character, as a terminal may show it: by its number if the character is hidden, and else as it
// is.
fn push_byte(out: &mut Vec<u8>, byte: u8, hidden: bool) -> Result<(), Memory>
    ensures { OnOk result (out.new.items ≡ out.old.items ++ byte_shown hidden byte) }
{
    if hidden {
        push_escape(out, byte)?;
    } else {
        out.push(byte)?;
    }
    Ok(())
}

// Appends the bytes of one character, as a terminal may show it: by their numbers if it is hidden, and else as they
// are.
fn push_character(out: &mut Vec<u8>, character: &[u8], hidden: bool) -> Result<(), Memory>
    ensures { OnOk result (out.new.items ≡ out.old.items ++ character_shown hidden character.now) }
{
    for byte in character {
        push_byte(out, *byte, hidden)?;
    }
    Ok(())
}

// Appends the first character of these bytes, as a terminal may show it, and answers the bytes behind it.
fn push_first<'a>(out: &mut Vec<u8>, bytes: &'a [u8]) -> Result<&'a [u8], Memory>
    requires { 0 < length bytes.now }
    ensures shown { IfOk result (λ behind. out.new.items ++ shown behind.now ≡ out.old.items ++ shown bytes.now) }
    ensures shorter { IfOk result (λ behind. length behind.now < length bytes.now) }
{
    let (character, behind) = bytes.split_at(width(bytes));
    push_character(out, character, is_hidden(bytes))?;
    Ok(behind)
}

/// Appends a text as a terminal may show it: the bytes of control characters, but for a TAB, and of the byte order mark
/// as `\x` and two digits each.
pub fn push_shown(out: &mut Vec<u8>, bytes: &[u8]) -> Result<(), Memory>
    ensures { OnOk result (out.new.items ≡ out.old.items ++ shown bytes.now) }
{
    let mut rest = bytes;
    while !rest.is_empty() {
        rest = push_first(out, rest)?;
    }
    Ok(())
}
