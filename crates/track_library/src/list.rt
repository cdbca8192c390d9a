// Lists of audio files.
ghost use Rattle.std.specs.Prelude.{◌≡◌, ◌<◌, ◌∷◌, false, true, length, IfOk, MatchOption};
ghost use Rattle.track_library.specs.Lists.{is_name, lines, names_listed, without_cr, without_mark};

use liq_base::{Memory, Text};
use std::alloc::Global;

/// The bytes of the byte order mark.
const MARK: [u8; 3] = [0xEF, 0xBB, 0xBF];

/// The names in a list of audio files, in order. Lines end at LF or at the end; a CR at a line's end and a byte order
/// mark at the start are no part of them. Lines that are empty, begin with `#` or are not UTF-8 are skipped.
pub fn read_list(alloc: Global, bytes: &[u8]) -> Result<Vec<Text>, Memory>
    ensures names { IfOk result (λ names. names.items ≡ names_listed bytes.now) }
{
    let mut names = Vec::new(alloc);
    let mut rest = cut_mark(bytes);
    while !rest.is_empty() {
        let (line, after) = cut_line(rest);
        if let Some(name) = line_name(line) {
            names.push(Text::from_str(alloc, name)?)?;
        }
        rest = after;
    }
    Ok(names)
}

/// The bytes of a list file after the byte order mark at their start; all bytes where there is none.
pub fn cut_mark(bytes: &[u8]) -> &[u8]
    ensures { result.now ≡ without_mark bytes.now }
{
    match bytes.strip_prefix(MARK.as_slice()) {
        Some(rest) => rest,
        None => bytes,
    }
}

/// Cuts the first line from the bytes of a list file: the line without its LF, and what comes behind the LF. Where
/// there is no LF, the line is the whole, and nothing comes behind.
pub fn cut_line(bytes: &[u8]) -> (&[u8], &[u8])
    requires { 0 < length bytes.now }
    ensures cut { lines bytes.now ≡ result.0.now ∷ lines result.1.now }
    ensures shorter { length result.1.now < length bytes.now }
{
    for at in 0..bytes.len() {
        if bytes[at] == b'\n' {
            return (&bytes[..at], &bytes[at + 1..]);
        }
    }
    (bytes, &[])
}

/// The name of an audio file in a line of a list. `None` says that the line is skipped: it is empty, a comment that
/// begins with `#`, or not UTF-8.
fn line_name(line: &[u8]) -> Option<&str>
    ensures { MatchOption result (is_name (without_cr line.now) ≡ false)
        (λ name. (is_name (without_cr line.now) ≡ true) × (name.now ≡ without_cr line.now)) }
{
    let line = cut_cr(line);
    if line.is_empty() || line[0] == b'#' {
        return None;
    }
    match str::from_utf8(line) {
        Ok(name) => Some(name),
        Err(_) => None,
    }
}

/// The line of a list without the CR at its end, if it has one.
pub fn cut_cr(line: &[u8]) -> &[u8]
    ensures { result.now ≡ without_cr line.now }
{
    match line.strip_suffix(b"\r".as_slice()) {
        Some(front) => front,
        None => line,
    }
}
