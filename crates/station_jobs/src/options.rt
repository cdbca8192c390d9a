// The options of a rendering.
ghost use Rattle.std.specs.Prelude.{◌≡◌, ℕ, List, true, None, Some, is_some, option_map, unwrap_or, if◌then◌else◌};
ghost use Rattle.std.specs.Prelude.{IfSome, IsSomeAnd};
ghost use Rattle.station_jobs.specs.Read.{options_of};
ghost use Rattle.station_jobs.specs.Words.{AreOptions, IsOption, IsStart, IsTraceName, Options as AllOptions};
ghost use Rattle.station_jobs.specs.Words.{no_options, start_in, texts};

use crate::window::{Window, read_window_option};
use fixed_text::{WeekSecond, read_start};

/// The options of a rendering: whether it runs on one thread; how many ticks a window has, the second of the week at
/// which it begins, and the name of the trace's file, if these are said; and whether cue files are wanted.
#[derive(Clone, Copy)]
pub struct Options<'a> {
    pub one_thread: bool,
    pub window: Option<Window>,
    pub start: Option<WeekSecond>,
    pub trace: Option<&'a str>,
    pub cues: bool,
}

/// Reads the words behind `render FILE N` as options, in any order and each at most once; `None` if a word is no option
/// or is said twice.
pub fn read_options(words: &[String]) -> Option<Options<'_>>
    ensures found { IfSome result (λ options. AreOptions no_options (texts words.now) (options_of options)) }
    ensures only { (all : AllOptions) → AreOptions no_options (texts words.now) all
        → option_map options_of result ≡ Some all }
{
    let mut options = Options {
        one_thread: false,
        window: None,
        start: None,
        trace: None,
        cues: false,
    };
    for word in words {
        options = read_option(word.as_str(), options)?;
    }
    Some(options)
}

// Reads one word as an option of a rendering, and adds it to those before; `None` if it is no option or was said
// before.
fn read_option<'a>(word: &'a str, before: Options<'a>) -> Option<Options<'a>>
    ensures found { IfSome result (λ after. IsOption word.now (options_of before.entry) (options_of after)) }
    ensures only { (after : AllOptions) → IsOption word.now (options_of before.entry) after
        → option_map options_of result ≡ Some after }
{
    if word == "--one-thread" {
        return with_one_thread(before);
    }
    if word == "--cues" {
        return with_cues(before);
    }
    if let Some(window) = read_window_option(word) {
        return with_window(window, before);
    }
    if let Some(start) = read_start_option(word) {
        return with_start(start, before);
    }
    let trace = read_trace_option(word)?;
    with_trace(trace, before)
}

// Adds `--one-thread` to the options; `None` if it was said before.
fn with_one_thread<'a>(before: Options<'a>) -> Option<Options<'a>>
    ensures { option_map options_of result ≡ (if before.entry.one_thread then None
        else Some (record (options_of before.entry) { one_thread = true })) }
{
    if before.one_thread {
        return None;
    }
    Some(Options {
        one_thread: true,
        ..before
    })
}

// Adds `--cues` to the options, which asks for cue files; `None` if it was said before.
fn with_cues<'a>(before: Options<'a>) -> Option<Options<'a>>
    ensures { option_map options_of result ≡ (if before.entry.cues then None
        else Some (record (options_of before.entry) { cues = true })) }
{
    if before.cues {
        return None;
    }
    Some(Options {
        cues: true,
        ..before
    })
}

// Adds the length of a window, in ticks, to the options; `None` if one was said before.
fn with_window<'a>(window: Window, before: Options<'a>) -> Option<Options<'a>>
    ensures { option_map options_of result ≡ (if is_some before.entry.window then None
        else Some (record (options_of before.entry) { window = Some window.ticks })) }
{
    if before.window.is_some() {
        return None;
    }
    Some(Options {
        window: Some(window),
        ..before
    })
}

// Adds the second of the week of the start to the options; `None` if a start was said before.
fn with_start<'a>(start: WeekSecond, before: Options<'a>) -> Option<Options<'a>>
    ensures { option_map options_of result ≡ (if is_some before.entry.start then None
        else Some (record (options_of before.entry) { start = Some start.second })) }
{
    if before.start.is_some() {
        return None;
    }
    Some(Options {
        start: Some(start),
        ..before
    })
}

// Adds the name of the trace's file to the options; `None` if one was said before.
fn with_trace<'a>(trace: &'a str, before: Options<'a>) -> Option<Options<'a>>
    ensures { option_map options_of result ≡ (if is_some before.entry.trace then None
        else Some (record (options_of before.entry) { trace = Some trace.now })) }
{
    if before.trace.is_some() {
        return None;
    }
    Some(Options {
        trace: Some(trace),
        ..before
    })
}

/// How many ticks a window of threads has with these options: 16 if they do not say it.
pub fn window_of(options: Options<'_>) -> Window
    ensures { result.ticks ≡ unwrap_or (options_of options.entry).window 16 }
{
    match options.window {
        Some(window) => window,
        None => Window { ticks: 16 },
    }
}

/// The second of the week at which a rendering with these options begins: 0, Monday at midnight, if they do not say it.
pub fn start_of(options: Options<'_>) -> WeekSecond
    ensures { result.second ≡ start_in (options_of options.entry) }
{
    match options.start {
        Some(start) => start,
        None => WeekSecond { second: 0 },
    }
}

/// Reads a word `--start=D:HH:MM:SS` as a second of the week; `None` for any other word.
pub fn read_start_option(word: &str) -> Option<WeekSecond>
    ensures found { IfSome result (λ start. IsStart word.now start.second) }
    ensures only { (start : ℕ) → IsStart word.now start → IsSomeAnd result (λ found. found.second ≡ start) }
{
    let text = word.as_bytes().strip_prefix(b"--start=")?;
    read_start(text)
}

// Reads a word `--trace=NAME`, and gives the name of the file; `None` for any other word, or an empty name.
fn read_trace_option(word: &str) -> Option<&str>
    ensures found { IfSome result (λ name. IsTraceName word.now name.now) }
    ensures only { (name : List ℕ) → IsTraceName word.now name → IsSomeAnd result (λ found. found.now ≡ name) }
{
    let name = word.strip_prefix("--trace=")?;
    if name.is_empty() {
        return None;
    }
    Some(name)
}
