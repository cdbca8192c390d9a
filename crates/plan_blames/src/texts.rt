// Names and numbers within a picture.
ghost use Rattle.std.specs.Prelude.{◌≡◌, ◌++◌, OnOk, decimal};
ghost use Rattle.plan_blames.specs.Texts.{escaped, escaped_byte};

use fixed_text::write_u64;
use liq_base::Memory;

/// Appends a text and then a number in decimal.
pub fn push_number(into: &mut Vec<u8>, text: &[u8], number: u64) -> Result<(), Memory>
    ensures { OnOk result (into.new.items ≡ into.old.items ++ text.now ++ decimal number) }
{
    into.extend_from_slice(text)?;
    write_u64(into, number)?;
    Ok(())
}

/// Appends a number in decimal between two texts, `text` and `behind`.
pub fn push_between(
    into: &mut Vec<u8>,
    text: &[u8],
    number: u64,
    behind: &[u8],
) -> Result<(), Memory>
    ensures { OnOk result (into.new.items ≡ into.old.items ++ (text.now ++ decimal number ++ behind.now)) }
{
    push_number(into, text, number)?;
    into.extend_from_slice(behind)?;
    Ok(())
}

/// Appends a name between two texts, with its quotes and other signs escaped for graphviz.
pub fn push_quoted(into: &mut Vec<u8>, text: &[u8], name: &str, behind: &[u8]) -> Result<(), Memory>
    ensures { OnOk result (into.new.items ≡ into.old.items ++ (text.now ++ escaped name.now ++ behind.now)) }
{
    into.extend_from_slice(text)?;
    push_escaped(into, name.as_bytes())?;
    into.extend_from_slice(behind)?;
    Ok(())
}

/// Appends a name with its quotes, backslashes and ampersands escaped, so that graphviz reads it as it is.
pub fn push_escaped(into: &mut Vec<u8>, name: &[u8]) -> Result<(), Memory>
    ensures { OnOk result (into.new.items ≡ into.old.items ++ escaped name.now) }
{
    for byte in name {
        push_byte(into, *byte)?;
    }
    Ok(())
}

// Appends a byte of a name; a quote, a backslash or an ampersand is escaped, so that graphviz reads it as it is.
fn push_byte(into: &mut Vec<u8>, byte: u8) -> Result<(), Memory>
    ensures { OnOk result (into.new.items ≡ into.old.items ++ escaped_byte byte) }
{
    if byte == b'"' {
        into.extend_from_slice(b"\\\"")?;
    } else if byte == b'\\' {
        into.extend_from_slice(b"\\\\")?;
    } else if byte == b'&' {
        into.extend_from_slice(b"&amp;")?;
    } else {
        into.push(byte)?;
    }
    Ok(())
}

/// Appends a text as it stands, without escaping.
pub fn push_plain(into: &mut Vec<u8>, text: &[u8]) -> Result<(), Memory>
    ensures { OnOk result (into.new.items ≡ into.old.items ++ text.now) }
{
    into.extend_from_slice(text)?;
    Ok(())
}

/// Appends a text and then a name, with its quotes and other signs escaped for graphviz.
pub fn push_named(into: &mut Vec<u8>, text: &[u8], name: &str) -> Result<(), Memory>
    ensures { OnOk result (into.new.items ≡ into.old.items ++ text.now ++ escaped name.now) }
{
    into.extend_from_slice(text)?;
    push_escaped(into, name.as_bytes())
}
