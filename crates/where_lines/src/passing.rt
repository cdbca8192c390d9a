// Lines that are passed on.
ghost use Rattle.std.specs.Prelude.{◌≡◌, ◌≢◌, ◌++◌, [], Bool, List, ℕ, None, Some, true, false, IfErr, IfOk, IfSome};
ghost use Rattle.std.specs.Prelude.{OnOk};
ghost use Rattle.std.specs.Io.BufRead.{drop_through, ends_with_byte, take_through};
ghost use Rattle.std.specs.Option.{option_map};
ghost use Rattle.script_places.specs.Pointing.{pointer};
ghost use Rattle.where_lines.specs.Broken.{BrokeOff, IsBroken, TookFront};
ghost use Rattle.where_lines.specs.declared.passing.Broke.TheVariants as broke;
ghost use Rattle.where_lines.specs.Kept.{IsKept};
ghost use Rattle.where_lines.specs.Passes.{AllPassed, IsBehind, TookAll, closing_of, told_of};

use crate::kept::Kept;
use crate::places::place_of;
use liq_base::{Memory, Sink};
use script_places::{named_in, pointer};
use std::alloc::Global;
use std::io::{BufRead, ErrorKind};

/// Why lines were not passed on to their end.
#[derive(Clone, Copy, Debug, PartialEq, Eq)]
pub enum Broke {
    /// They could not be read.
    Input,

    /// They could not be written.
    Output,

    /// Memory was refused.
    Memory,
}

impl From<Memory> for Broke {
    ghost use Rattle.where_lines.specs.declared.passing.Broke.TheVariants as broke;

    ghost from_gives = { λ _ e. e ≡ broke.Memory };

    // Refused memory ends the passing of lines.
    fn from(_refused: Memory) -> Broke {
        Broke::Memory
    }
}

/// Passes the lines of a reader on to `out` to their end, and behind each that names a place of a script the two lines
/// that show it. `file` is the script's name, and `text` its bytes, `None` where it could not be read.
/// `kept` is what was read of the script for the lines before. An error says what broke; the lines before are out.
pub fn pass_lines<R: BufRead, O: Sink>(
    alloc: Global,
    input: &mut R,
    out: &mut O,
    file: &str,
    text: Option<&[u8]>,
    kept: &mut Kept,
) -> Result<(), Broke>
    requires room { (O.told out.old).room ≡ None }
    requires kept { IfSome (option_map (λ bytes. bytes.now) text) (λ script. IsKept script kept.old) }
    ensures room { (O.told out.new).room ≡ None }
    ensures done { OnOk result (AllPassed file.now (option_map (λ bytes. bytes.now) text.entry) (R.remaining input.old)
        (O.told out.old) (O.told out.new)) }
    ensures broken { IfErr result (λ broke. BrokeOff file.now (option_map (λ bytes. bytes.now) text.entry) broke
        (R.remaining input.old) (O.told out.old) (O.told out.new)) }
{
    let mut line = Vec::new(alloc);
    for _ in 0..u64::MAX {
        if !read_line(input, &mut line)? {
            return Ok(());
        }
        write(out, &line)?;
        show(alloc, &line, out, file, text, kept)?;
    }
    Err(Broke::Input)
}

// Reads the next line into `line`, with its LF if it has one, in place of what was there. False at the end of the
// input, where there is none.
fn read_line<R: BufRead>(input: &mut R, line: &mut Vec<u8>) -> Result<bool, Broke>
    ensures some { IfOk result (λ is_line. is_line ≡ true → IfSome (R.remaining input.old) (λ rest. (rest ≢ [])
        × (line.new.items ≡ take_through 10 rest) × (R.remaining input.new ≡ Some (drop_through 10 rest)))) }
    ensures none { IfOk result (λ is_line. is_line ≡ false → IfSome (R.remaining input.old) (λ rest. rest ≡ [])) }
    ensures cause { IfErr result (λ told. told ≢ broke.Output) }
{
    line.clear();
    match input.read_until(b'\n', line) {
        Ok(count) => Ok(count > 0),
        Err(error) => Err(cause_of(error.kind())),
    }
}

// Why a line could not be read, by the error of the system: want of memory, or the input.
fn cause_of(kind: ErrorKind) -> Broke
    ensures { result ≢ broke.Output }
{
    match kind {
        ErrorKind::OutOfMemory => Broke::Memory,
        _ => Broke::Input,
    }
}

// Writes a piece to `out`.
fn write<O: Sink>(out: &mut O, piece: &[u8]) -> Result<(), Broke>
    requires { (O.told out.old).room ≡ None }
    ensures room { (O.told out.new).room ≡ None }
    ensures took { OnOk result (TookAll piece.now (O.told out.old) (O.told out.new)) }
    ensures broken { IfErr result (λ told. (told ≡ broke.Output)
        × TookFront piece.now (O.told out.old) (O.told out.new)) }
{
    match out.append(piece) {
        Ok(()) => Ok(()),
        Err(_) => Err(Broke::Output),
    }
}

// Writes to `out` the two lines that show the place of a script that a line names, if it names one. `file` is the
// script's name, `text` its bytes if it could be read, and `kept` what was read of it before.
fn show<O: Sink>(
    alloc: Global,
    line: &[u8],
    out: &mut O,
    file: &str,
    text: Option<&[u8]>,
    kept: &mut Kept,
) -> Result<(), Broke>
    requires room { (O.told out.old).room ≡ None }
    requires kept { IfSome (option_map (λ bytes. bytes.now) text) (λ script. IsKept script kept.old) }
    ensures room { (O.told out.new).room ≡ None }
    ensures kept { IfSome (option_map (λ bytes. bytes.now) text.entry) (λ script. IsKept script kept.new) }
    ensures behind { OnOk result ((behind : List ℕ)
        × IsBehind file.now (option_map (λ bytes. bytes.now) text.entry) line.now behind
        × TookAll behind (O.told out.old) (O.told out.new)) }
    ensures broken { IfErr result (IsBroken file.now (option_map (λ bytes. bytes.now) text.entry) line.now
        (O.told out.old) (O.told out.new)) }
{
    let behind = behind_of(alloc, line, file, text, kept)?;
    write(out, &behind)
}

// What comes behind a line: the two lines that show the place that it names in script `file`, or nothing. It is nothing
// too where the script's text could not be read, which `text` says by `None`.
fn behind_of(
    alloc: Global,
    line: &[u8],
    file: &str,
    text: Option<&[u8]>,
    kept: &mut Kept,
) -> Result<Vec<u8>, Memory>
    requires { IfSome (option_map (λ bytes. bytes.now) text) (λ script. IsKept script kept.old) }
    ensures kept { IfSome (option_map (λ bytes. bytes.now) text.entry) (λ script. IsKept script kept.new) }
    ensures behind { IfOk result (λ behind.
        IsBehind file.now (option_map (λ bytes. bytes.now) text.entry) line.now behind.items) }
{
    match text {
        Some(text) => behind_in(alloc, line, file, text, kept),
        None => Ok(Vec::new(alloc)),
    }
}

// What comes behind a line, by the script's text: the two lines that show the place that it names. Nothing comes where
// the line is no UTF-8, names no place, or names one that the script does not have.
fn behind_in(
    alloc: Global,
    line: &[u8],
    file: &str,
    text: &[u8],
    kept: &mut Kept,
) -> Result<Vec<u8>, Memory>
    requires { IsKept text.now kept.old }
    ensures kept { IsKept text.now kept.new }
    ensures behind { IfOk result (λ behind. IsBehind file.now (Some text.now) line.now behind.items) }
{
    let Ok(told) = str::from_utf8(told_of(line)) else {
        return Ok(Vec::new(alloc));
    };
    let Some(named) = named_in(told) else {
        return Ok(Vec::new(alloc));
    };
    let Some(at) = place_of(alloc, line, text, kept, named)? else {
        return Ok(Vec::new(alloc));
    };
    let behind = closed_pointer(alloc, line, file, text, at)?;
    Ok(behind)
}

// A line without its LF.
fn told_of(line: &[u8]) -> &[u8]
    ensures { result.now ≡ told_of line.now }
{
    match line {
        [told @ .., b'\n'] => told,
        _ => line,
    }
}

// Whether a line ends with a LF; the last one of an input may lack it.
fn is_closed(line: &[u8]) -> bool
    ensures { result ≡ ends_with_byte 10 line.now }
{
    match line {
        [.., last] => *last == b'\n',
        [] => false,
    }
}

// The two lines that show byte `at` of the script, whose name is `file`; before them a LF if the line has none, so
// that they do not go on in it.
fn closed_pointer(
    alloc: Global,
    line: &[u8],
    file: &str,
    text: &[u8],
    at: usize,
) -> Result<Vec<u8>, Memory>
    ensures { IfOk result (λ behind. behind.items ≡ closing_of line.now ++ pointer file.now text.now at) }
{
    let lines = pointer(alloc, file, text, at)?;
    if is_closed(line) {
        return Ok(lines);
    }
    let mut closed = Vec::new(alloc);
    closed.push(b'\n')?;
    closed.extend_from_slice(&lines)?;
    Ok(closed)
}
