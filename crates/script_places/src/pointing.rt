// The two lines that show a place.
ghost use Rattle.std.specs.Prelude.{◌≡◌, ◌++◌, IfOk, OnOk, codes, string_bytes};
ghost use Rattle.script_places.specs.Pointing.{trimmed, up_to_lf, without_cr, blank_for, blanks_for, head, front};
ghost use Rattle.script_places.specs.Pointing.{caret, pointer};
ghost use Rattle.script_places.specs.Showing.{shown};

use crate::counting::{column, first_character, in_line, line};
use crate::place::{before, behind};
use crate::showing::{is_marked, push_shown};
use liq_base::Memory;
use std::alloc::Global;

/// The lines that show the byte of this number, counted from 0, or the end of the text past it: `FILE:LINE:COLUMN: `
/// and the text of the line without its leading blanks, and below it a caret. Bytes of control characters are shown by
/// their numbers, and a byte order mark that stands at the place is told in words.
pub fn pointer(alloc: Global, file: &str, text: &[u8], at: usize) -> Result<Vec<u8>, Memory>
    ensures { IfOk result (λ lines. lines.items ≡ pointer file.now text.now at) }
{
    let before = before(text, at);
    let head = head(alloc, file, before)?;
    let mut front = Vec::new(alloc);
    push_shown(&mut front, trimmed(in_line(before)))?;
    let mut lines = Vec::new(alloc);
    let rest = cut_cr(up_to_lf(behind(text, at)));
    push_line(&mut lines, head.as_bytes(), &front, rest)?;
    push_caret(&mut lines, head.as_bytes(), &front, caret(text, at))?;
    Ok(lines)
}

// The begin of the line that shows a place of a script, `FILE:LINE:COLUMN: `, by the bytes before the place.
fn head(alloc: Global, file: &str, before: &[u8]) -> Result<String, Memory>
    ensures { IfOk result (λ line. string_bytes line ≡ head file.now before.now) }
{
    let (line, column) = (line(before), column(before));
    Ok(format!(in alloc; "{file}:{line}:{column}: ")?)
}

// Appends the first of the two lines that show a place: `head` (`FILE:LINE:COLUMN: `), the part of the line before the
// place (`front`, ready to be shown), and the rest of the line. A line feed ends it.
fn push_line(lines: &mut Vec<u8>, head: &[u8], front: &[u8], rest: &[u8]) -> Result<(), Memory>
    ensures { OnOk result (lines.new.items ≡ lines.old.items ++ head.now ++ front.now ++ shown rest.now ++ codes "\n") }
{
    lines.extend_from_slice(head)?;
    lines.extend_from_slice(front)?;
    push_shown(lines, rest)?;
    lines.push(b'\n')?;
    Ok(())
}

// Appends the second of the two lines that show a place: blanks below `head` and below the part of the line before the
// place (`front`), and the caret.
fn push_caret(lines: &mut Vec<u8>, head: &[u8], front: &[u8], caret: &[u8]) -> Result<(), Memory>
    ensures { OnOk result (lines.new.items ≡ lines.old.items ++ blanks_for head.now ++ blanks_for front.now
        ++ caret.now) }
{
    push_blanks(lines, head)?;
    push_blanks(lines, front)?;
    lines.extend_from_slice(caret)?;
    Ok(())
}

// The end of the second line that shows byte `at`: a caret below it, and a word of advice where it is a byte order
// mark.
fn caret(text: &[u8], at: usize) -> &'static [u8]
    ensures { result.now ≡ caret text.now at }
{
    if at == 0 && is_marked(text) {
        b"^ a byte order mark: save the script without it\n"
    } else {
        b"^\n"
    }
}

// A line without the carriage return at its end, if it has one.
fn cut_cr(line: &[u8]) -> &[u8]
    ensures { result.now ≡ without_cr line.now }
{
    match line.strip_suffix(b"\r".as_slice()) {
        Some(front) => front,
        None => line,
    }
}

// The bytes of a line without the spaces and TABs at its begin.
fn trimmed(bytes: &[u8]) -> &[u8]
    ensures { result.now ≡ trimmed bytes.now }
{
    let mut start = 0;
    while start < bytes.len() && (bytes[start] == b' ' || bytes[start] == b'\t') {
        start += 1;
    }
    &bytes[start..]
}

// The rest of the line at the front of these bytes: those before the first line feed, or all.
fn up_to_lf(bytes: &[u8]) -> &[u8]
    ensures { result.now ≡ up_to_lf bytes.now }
{
    let mut end = 0;
    while end < bytes.len() && bytes[end] != b'\n' {
        end += 1;
    }
    &bytes[..end]
}

// The blank that stands below a character that begins with this byte: a TAB below a TAB, so that the columns agree,
// else a space.
fn blank_for(first: u8) -> u8
    ensures { result ≡ blank_for first }
{
    if first == b'\t' { b'\t' } else { b' ' }
}

// Appends the blanks that stand below these bytes, one for each character, so that what follows is below the place
// behind them.
fn push_blanks(out: &mut Vec<u8>, bytes: &[u8]) -> Result<(), Memory>
    ensures { OnOk result (out.new.items ≡ out.old.items ++ blanks_for bytes.now) }
{
    let mut rest = bytes;
    while !rest.is_empty() {
        let (first, behind) = first_character(rest);
        out.push(blank_for(first))?;
        rest = behind;
    }
    Ok(())
}
