// The forms that lines have.
ghost use Rattle.std.specs.Prelude.{◌≡◌, ◌++◌, IfOk, codes, string_bytes};
ghost use Rattle.refusal_lines.specs.Forms.{at_place, at_statement, at_token, of_audio, of_clocks, of_name};

use liq_base::Memory;
use std::alloc::Global;

/// The line of a refusal that is this text alone, with a line end.
pub fn plain(alloc: Global, text: &str) -> Result<String, Memory>
    ensures { IfOk result (λ line. string_bytes line ≡ text.now ++ codes "\n") }
{
    Ok(format!(in alloc; "{text}\n")?)
}

/// The line of a refusal at a place of the script: a text, and the number of a byte or of a token.
pub fn at_place(alloc: Global, text: &str, place: u32) -> Result<String, Memory>
    ensures { IfOk result (λ line. string_bytes line ≡ at_place text.now place) }
{
    Ok(format!(in alloc; "{text} {place}\n")?)
}

/// The line of a refusal at a line of a file: a text, and the number of the line.
pub fn at_line(alloc: Global, text: &str, number: u64) -> Result<String, Memory>
    ensures { IfOk result (λ line. string_bytes line ≡ at_place text.now number) }
{
    Ok(format!(in alloc; "{text} {number}\n")?)
}

/// The line of a refusal that names a file, an output or a limit: a text and the name.
pub fn of_name(alloc: Global, text: &str, name: &str) -> Result<String, Memory>
    ensures { IfOk result (λ line. string_bytes line ≡ of_name text.now name.now) }
{
    Ok(format!(in alloc; "{text} {name}\n")?)
}

/// The line of a refusal of a statement: its number, as `E12`, the number of the statement, and a text of what is
/// wrong.
pub fn at_statement(
    alloc: Global,
    number: &str,
    statement: u32,
    text: &str,
) -> Result<String, Memory>
    ensures { IfOk result (λ line. string_bytes line ≡ at_statement number.now statement text.now) }
{
    Ok(format!(in alloc; "{number} statement {statement}: {text}\n")?)
}

/// The line of a refusal at a token of a statement: its number, as `E08`, that of the statement, a text of what is
/// wrong, and the number of the token.
pub fn at_token(
    alloc: Global,
    number: &str,
    statement: u32,
    text: &str,
    token: u32,
) -> Result<String, Memory>
    ensures { IfOk result (λ line. string_bytes line ≡ at_token number.now statement text.now token) }
{
    Ok(format!(in alloc; "{number} statement {statement}: {text} at token {token}\n")?)
}

/// The line of a refusal of an audio file: a text, the name of the file, and the number of what is wrong with it.
pub fn of_audio(alloc: Global, text: &str, name: &str, number: u32) -> Result<String, Memory>
    ensures { IfOk result (λ line. string_bytes line ≡ of_audio text.now name.now number) }
{
    Ok(format!(in alloc; "{text} {name}: {number}\n")?)
}

/// The line of a refusal of a source in two clocks: a text, the number of the source, and what the two clocks are
/// called.
pub fn of_clocks(
    alloc: Global,
    text: &str,
    node: u32,
    first: &str,
    second: &str,
) -> Result<String, Memory>
    ensures { IfOk result (λ line. string_bytes line ≡ of_clocks text.now node first.now second.now) }
{
    Ok(format!(in alloc; "{text} {node} under clocks {first} and {second}\n")?)
}
