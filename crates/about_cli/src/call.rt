// The top call.
ghost use Rattle.std.specs.Prelude.{◌≡◌, ◌≢◌, [], None, Some, IfOk, if◌then◌else◌};
ghost use Rattle.about_cli.specs.Ends.{AsksForFiles, AsksForLines, Ends, IsComplete, IsPassedBy, IsScript, Passed};
ghost use Rattle.about_cli.specs.Ends.{Puts, TellsLong, TellsText, Told, outside_of};
ghost use Rattle.about_cli.specs.Words.{texts};
ghost use Rattle.liq_base.specs.Shelves.{OnlyRead, ShelfTold};

use crate::told::{Untold, told_of};
use crate::verb::{Question, Verb, verb_of};
use liq_base::limits::MAX_SCRIPT_BYTES;
use liq_base::{Failed, Fetched, Memory, Shelf, ShelfFault, Sink};
use script_plan::laws;
use station_facts::tell_too_long;
use std::alloc::Global;
use std::io::Read;
use where_lines::{Broke, pass_on};

// The line for words that have no form.
const USAGE: &str = "usage: about where|week|picture|files|hours|tokens FILE\n";

/// All was told.
const DONE: u8 = 0;

/// The script has no plan.
const NO_PLAN: u8 = 1;

/// The words have no form; the usage line is on `err`.
const NO_FORM: u8 = 2;

/// The script, or the input, could not be read.
const NO_INPUT: u8 = 3;

/// The answer could not be written.
const NO_OUTPUT: u8 = 4;

/// Memory was refused.
const NO_MEMORY: u8 = 5;

/// Runs one call of the command `about`: tells on `out` what `words` (a question and a script's name) ask about a
/// script of `scripts`, and answers the status, from 0 to 5. `input` has the lines that `where` passes on, and is read
/// for `where` alone. `shelf` has the script's files, read for `files` alone. `err` gets the usage line for words
/// without a form.
pub fn about<T: Shelf, S: Shelf, I: Read, O: Sink, E: Sink>(
    alloc: Global,
    words: &[String],
    scripts: &mut T,
    shelf: &mut S,
    input: &mut I,
    out: &mut O,
    err: &mut E,
) -> u8
    requires out_room { (O.told out.old).room ≡ None }
    requires err_room { (E.told err.old).room ≡ None }
    ensures ends { Ends (texts words.now) (I.remaining input.old)
        (outside_of (T.told scripts.old) (S.told shelf.old) (O.told out.old) (E.told err.old))
        (outside_of (T.told scripts.new) (S.told shelf.new) (O.told out.new) (E.told err.new))
        result }
    ensures complete { IsComplete (texts words.now)
        (outside_of (T.told scripts.old) (S.told shelf.old) (O.told out.old) (E.told err.old))
        (outside_of (T.told scripts.new) (S.told shelf.new) (O.told out.new) (E.told err.new))
        result }
    ensures untouched { (AsksForFiles (texts words.now) → ⊥) → shelf.new ≡ shelf.old }
    ensures unread { (AsksForLines (texts words.now) → ⊥) → input.new ≡ input.old }
{
    laws::one_answer();
    laws::one_list_of_calls();
    if words.len() == 2 {
        match verb_of(words[0].as_str()) {
            Some(Verb::Where) => return show(alloc, words[1].as_str(), scripts, input, out),
            Some(Verb::Tell(question)) => {
                return answer(alloc, question, words[1].as_str(), scripts, shelf, out);
            }
            None => {}
        }
    }
    put(err, USAGE.as_bytes(), NO_FORM)
}

// Answers the word `where`: passes the lines of `input` on to `out`, with the places in the script `file` that they
// name. A script that cannot be read has no places, and the lines go on all the same. Returns the status of the call.
fn show<T: Shelf, I: Read, O: Sink>(
    alloc: Global,
    file: &str,
    scripts: &mut T,
    input: &mut I,
    out: &mut O,
) -> u8
    requires { (O.told out.old).room ≡ None }
    ensures passed { Passed file.now (T.told scripts.old) (T.told scripts.new) (I.remaining input.old) (O.told out.old)
        (O.told out.new) result }
    ensures scripts { OnlyRead (T.told scripts.old) (T.told scripts.new) }
{
    let mut text = Vec::new(alloc);
    match find_script(file, scripts, &mut text) {
        Ok(true) => {
            let text = Some(text.as_slice());
            passed(pass_on(alloc, input, out, file, text))
        }
        Ok(false) => passed(pass_on(alloc, input, out, file, None)),
        Err(Memory) => NO_MEMORY,
    }
}

// Reads the bytes of the script `file` of `scripts` into `text`, which is empty. False says that it is not there, too
// long or unreadable; `Err` that memory was refused.
fn find_script<T: Shelf>(file: &str, scripts: &mut T, text: &mut Vec<u8>) -> Result<bool, Memory>
    requires { text.old.items ≡ [] }
    ensures script { IfOk result (λ found. IsScript file.now (T.told scripts.old) (T.told scripts.new)
        (if found then Some text.new.items else None)) }
    ensures scripts { OnlyRead (T.told scripts.old) (T.told scripts.new) }
{
    match scripts.read(file, text, MAX_SCRIPT_BYTES) {
        Ok(Fetched::Found) => Ok(true),
        Ok(Fetched::TooLarge) => Ok(false),
        Ok(Fetched::Missing) => Ok(false),
        Err(ShelfFault::Failed) => Ok(false),
        Err(ShelfFault::Memory) => Err(Memory),
    }
}

// The status of the call after lines were passed on: `done` says how that ended, by the fault of input, output or
// memory.
fn passed(done: Result<(), Broke>) -> u8
    ensures { IsPassedBy done result }
{
    match done {
        Ok(()) => DONE,
        Err(Broke::Input) => NO_INPUT,
        Err(Broke::Output) => NO_OUTPUT,
        Err(Broke::Memory) => NO_MEMORY,
    }
}

// Reads the script `file`, writes to `out` the answer to a question about it, and returns the status of the call.
// `shelf` has the audio files and lists that the script plays.
fn answer<T: Shelf, S: Shelf, O: Sink>(
    alloc: Global,
    question: Question,
    file: &str,
    scripts: &mut T,
    shelf: &mut S,
    out: &mut O,
) -> u8
    requires { (O.told out.old).room ≡ None }
    ensures told { Told question file.now (T.told scripts.old) (T.told scripts.new) (S.told shelf.old)
        (S.told shelf.new)
        (O.told out.old) (O.told out.new) result }
    ensures scripts { OnlyRead (T.told scripts.old) (T.told scripts.new) }
    ensures shelf { OnlyRead (S.told shelf.old) (S.told shelf.new) }
    ensures untouched { question ≢ Question.Files → shelf.new ≡ shelf.old }
{
    let mut text = Vec::new(alloc);
    match scripts.read(file, &mut text, MAX_SCRIPT_BYTES) {
        Ok(Fetched::Found) => tell(alloc, question, text.as_slice(), shelf, out),
        Ok(Fetched::TooLarge) => tell_long(alloc, question, out),
        Ok(Fetched::Missing) => NO_INPUT,
        Err(ShelfFault::Failed) => NO_INPUT,
        Err(ShelfFault::Memory) => NO_MEMORY,
    }
}

// Answers a question about a script that is longer than a script may be, and returns the status: of its tokens it tells
// that it is too long, and to all else it has no plan.
fn tell_long<O: Sink>(alloc: Global, question: Question, out: &mut O) -> u8
    requires { (O.told out.old).room ≡ None }
    ensures { (shelf : ShelfTold) → TellsLong question shelf (O.told out.old) (O.told out.new) result }
{
    match question {
        Question::Tokens => put_long(alloc, out),
        _ => NO_PLAN,
    }
}

// Writes to `out` what is told of the tokens of a script that is too long, which has none, and returns the status of
// the call.
fn put_long<O: Sink>(alloc: Global, out: &mut O) -> u8
    requires { (O.told out.old).room ≡ None }
    ensures { (shelf : ShelfTold) → TellsLong Question.Tokens shelf (O.told out.old) (O.told out.new) result }
{
    match tell_too_long(alloc) {
        Ok(told) => put(out, &told, DONE),
        Err(Memory) => NO_MEMORY,
    }
}

// Writes to `out` the answer to a question about the script of these bytes, and returns the status of the call. `shelf`
// has the audio files and lists that the script plays.
fn tell<S: Shelf, O: Sink>(
    alloc: Global,
    question: Question,
    text: &[u8],
    shelf: &mut S,
    out: &mut O,
) -> u8
    requires { (O.told out.old).room ≡ None }
    ensures told { TellsText question text.now (S.told shelf.old) (S.told shelf.new) (O.told out.old) (O.told out.new)
        result }
    ensures shelf { OnlyRead (S.told shelf.old) (S.told shelf.new) }
    ensures untouched { question ≢ Question.Files → shelf.new ≡ shelf.old }
{
    match told_of(alloc, question, text, shelf) {
        Ok(told) => put(out, &told, DONE),
        Err(Untold::NoPlan) => NO_PLAN,
        Err(Untold::Memory) => NO_MEMORY,
    }
}

// Writes the one piece of output of a call to `sink`. Returns `status` if all of it was written, and otherwise 4, the
// status of a failed write.
fn put<W: Sink>(sink: &mut W, piece: &[u8], status: u8) -> u8
    requires { (W.told sink.old).room ≡ None }
    ensures { Puts piece.now status (W.told sink.old) (W.told sink.new) result }
{
    match sink.append(piece) {
        Ok(()) => status,
        Err(Failed) => NO_OUTPUT,
    }
}
