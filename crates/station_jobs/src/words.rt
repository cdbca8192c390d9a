// The words of a call.
ghost use Rattle.std.specs.Prelude.{◌≡◌, ℕ, Some, option_map, IfSome, IsSome, IsSomeAnd, OnSome};
ghost use Rattle.station_jobs.specs.Read.{asked_of, options_of};
ghost use Rattle.station_jobs.specs.Words.{Asked, AreApart, IsAsked, IsCheck, IsMake, IsOnlyStart, IsRender};
ghost use Rattle.station_jobs.specs.Words.{IsReplayAsked, Render as AsksToRender, rendering_by, start_in, texts};
ghost use Rattle.station_jobs.specs.Words.{window_in};

use crate::form::{Form, Rendering};
use crate::options::{Options, read_options, read_start_option, start_of, window_of};
use crate::size::read_size;
use crate::ticks::{Ticks, read_ticks};
use fixed_text::{WeekSecond, read_u64};

/// Reads the words of a call as one of the forms of the usage line: a check, a rendering, a workload or a replay;
/// `None` if they have no form.
pub fn read_words(words: &[String]) -> Option<Form<'_>>
    ensures found { IfSome result (λ form. IsAsked (texts words.now) (asked_of form)) }
    ensures only { (asked : Asked) → IsAsked (texts words.now) asked → option_map asked_of result ≡ Some asked }
{
    let [verb, rest @ ..] = words else {
        return None;
    };
    match verb.as_str() {
        "check" => read_check(rest),
        "render" => read_render(rest),
        "make" => read_make(rest),
        "replay" => read_replay(rest),
        _ => None,
    }
}

// Reads the words behind `check`, which are one FILE; `None` for any others.
fn read_check(words: &[String]) -> Option<Form<'_>>
    ensures found { IfSome result (λ form. IsCheck (texts words.now) (asked_of form)) }
    ensures only { (asked : Asked) → IsCheck (texts words.now) asked → option_map asked_of result ≡ Some asked }
{
    match words {
        [file] => Some(Form::Check {
            file: file.as_str(),
        }),
        _ => None,
    }
}

// Reads the words behind `render`: FILE, a number of ticks, and options; `None` for any others.
fn read_render(words: &[String]) -> Option<Form<'_>>
    ensures found { IfSome result (λ form. IsRender (texts words.now) (asked_of form)) }
    ensures only { (asked : Asked) → IsRender (texts words.now) asked → option_map asked_of result ≡ Some asked }
{
    let [file, number, options @ ..] = words else {
        return None;
    };
    let ticks = read_ticks(number.as_bytes())?;
    let options = read_options(options)?;
    form_of(file.as_str(), ticks, options)
}

// Reads the words behind `make`: a SEED and a SIZE, the number of audio files; `None` for any others.
fn read_make(words: &[String]) -> Option<Form<'_>>
    ensures found { IfSome result (λ form. IsMake (texts words.now) (asked_of form)) }
    ensures only { (asked : Asked) → IsMake (texts words.now) asked → option_map asked_of result ≡ Some asked }
{
    let [seed, size] = words else {
        return None;
    };
    let seed = read_u64(seed.as_bytes())?;
    let size = read_size(size.as_bytes())?;
    Some(Form::Make { seed, size })
}

// Reads the words behind `replay`: FILE, a number of ticks, a TRACE, and maybe a start; `None` for any others.
fn read_replay(words: &[String]) -> Option<Form<'_>>
    ensures found { IfSome result (λ form. IsReplayAsked (texts words.now) (asked_of form)) }
    ensures only { (asked : Asked) → IsReplayAsked (texts words.now) asked → option_map asked_of result ≡ Some asked }
{
    let [file, number, trace, options @ ..] = words else {
        return None;
    };
    let ticks = read_ticks(number.as_bytes())?;
    let start = read_only_start(options)?;
    Some(Form::Replay {
        file: file.as_str(),
        start,
        ticks,
        trace: trace.as_str(),
    })
}

// Reads the options of a replay: none, for a start at second 0 of the week, or one `--start=` word; `None` for any
// others.
fn read_only_start(options: &[String]) -> Option<WeekSecond>
    ensures found { IfSome result (λ start. IsOnlyStart (texts options.now) start.second) }
    ensures only { (start : ℕ) → IsOnlyStart (texts options.now) start
        → IsSomeAnd result (λ found. found.second ≡ start) }
{
    match options {
        [] => Some(WeekSecond { second: 0 }),
        [word] => read_start_option(word.as_str()),
        _ => None,
    }
}

// Makes the form of a rendering from its script, its ticks and the options that were read; `None` if a window or a
// trace is said beside `--one-thread`.
fn form_of<'a>(file: &'a str, ticks: Ticks, options: Options<'a>) -> Option<Form<'a>>
    ensures found { IfSome result (λ form. asked_of form
        ≡ AsksToRender (rendering_by file.now (start_in (options_of options.entry)) ticks.count
        (options_of options.entry).trace (options_of options.entry).cues) (window_in (options_of options.entry))) }
    ensures apart { OnSome result (AreApart (options_of options.entry)) }
    ensures only { AreApart (options_of options.entry) → IsSome result }
{
    let asked = Rendering {
        file,
        start: start_of(options),
        ticks,
        trace: options.trace,
        cues: options.cues,
    };
    if !options.one_thread {
        let window = window_of(options);
        return Some(Form::Threads { asked, window });
    }
    if options.window.is_some() || options.trace.is_some() {
        return None;
    }
    Some(Form::Alone(asked))
}
