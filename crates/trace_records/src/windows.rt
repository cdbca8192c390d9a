// Which windows of a buffer are legal, told by their answers alone.
ghost use Rattle.std.specs.Prelude.{◌≡◌, ◌≤◌, ◌<◌, ◌+◌, ◌↔◌, ◌-◌, true, false, drop, length, map, List, ℕ, IfSome};
ghost use Rattle.std.specs.Prelude.{IsNone};
ghost use Rattle.std.specs.List.{list_all};
ghost use Rattle.trace_records.specs.Traces.{pair_of};
ghost use Rattle.trace_records.specs.Told.{IsToldLegal, are_legal, begins_true, is_legal, passed, refusals_fit, yes};

use buffer_ends::WindowLog;

/// Whether a queue of at most `capacity` chunks, which holds `opening` at first, can answer so in some order of calls.
/// `puts` are true for each chunk that was accepted, and `takes` for each that was got.
/// It takes a time that is linear in their number.
pub fn is_legal(capacity: u32, opening: u32, puts: &[bool], takes: &[bool]) -> bool
    requires some { 1 ≤ capacity }
    requires fits { opening ≤ capacity }
    ensures legal { (result ≡ true) ↔ IsToldLegal (List ℕ) capacity opening puts.now takes.now }
    ensures test { result ≡ is_legal capacity opening puts.now takes.now }
{
    passes(capacity, opening, puts, takes)
}

/// How many chunks a window of a buffer leaves to the next one, if it holds `opening` at first and has these answers.
/// `puts` are true for each chunk that was accepted, and `takes` for each that was got.
/// `None` exactly where no queue of at most `capacity` chunks can answer so.
pub fn next_opening(capacity: u32, opening: u32, puts: &[bool], takes: &[bool]) -> Option<u32>
    requires some { 1 ≤ capacity }
    requires fits { opening ≤ capacity }
    ensures legal { IfSome result (λ left. (is_legal capacity opening puts.now takes.now ≡ true)
        × (left ≡ (opening + yes puts.now) - yes takes.now) × (left ≤ capacity)) }
    ensures none { IsNone result → is_legal capacity opening puts.now takes.now ≡ false }
{
    if !passes(capacity, opening, puts, takes) {
        return None;
    }
    let held = opening as u64 + count_true(puts);
    Some((held - count_true(takes)) as u32)
}

/// Whether a queue of at most `capacity` chunks, which is empty at first, can answer the windows of a buffer as a
/// trace tells them, one after another.
pub fn are_legal(capacity: u32, windows: &[WindowLog]) -> bool
    requires some { 1 ≤ capacity }
    ensures { result ≡ are_legal capacity 0 (map pair_of windows.now) }
{
    let mut opening = 0;
    for window in windows {
        match next_opening(capacity, opening, &window.puts, &window.takes) {
            Some(left) => opening = left,
            None => return false,
        }
    }
    true
}

// Whether the answers of a window pass the test for a legal one, that is, one of a queue of at most `capacity` chunks.
// No more chunks were got than were there, and no more stay than have room.
// As long as chunks of the `opening` are left, each take got one. Each refused put can have met a full buffer.
fn passes(capacity: u32, opening: u32, puts: &[bool], takes: &[bool]) -> bool
    ensures { result ≡ is_legal capacity opening puts.now takes.now }
{
    let accepted = opening as u64 + count_true(puts);
    let got = count_true(takes);
    got <= accepted
        && accepted <= capacity as u64 + got
        && begins_true(opening, takes)
        && refusals_fit(capacity, opening, puts, takes)
}

// How many of these answers are true: puts that were accepted, or takes that got a chunk.
fn count_true(answers: &[bool]) -> u64
    ensures count { result ≡ yes answers.now }
    ensures most { result ≤ length answers.now }
{
    let mut count = 0;
    for answer in answers {
        if *answer {
            count += 1;
        }
    }
    count
}

// Whether the first `count` answers of takes got a chunk, or all where there are fewer.
fn begins_true(count: u32, answers: &[bool]) -> bool
    ensures { result ≡ begins_true count answers.now }
{
    let most = answers.len().min(count as usize);
    all_true(&answers[..most])
}

// Whether each of these answers is true: each of the takes got a chunk.
fn all_true(answers: &[bool]) -> bool
    ensures { result ≡ list_all (λ answer. answer) answers.now }
{
    answers.iter().all(|answer| *answer)
}

// A place among the takes of a window.
#[derive(Clone, Copy)]
struct Place {
    // How many takes come before.
    at: usize,
    // How many of the takes before it got a chunk.
    got: u64,
    // How many chunks, opening and accepted puts, a refused put must have before it.
    floor: u64,
}

// Whether each refused put of a window can have found a full buffer of `capacity` chunks, `opening` of them at first.
// Of the takes, just those count as before it that must be. If g chunks were got up to the last empty one of them, at
// least `capacity` + g chunks must have come before the put.
fn refusals_fit(capacity: u32, opening: u32, puts: &[bool], takes: &[bool]) -> bool
    ensures { result ≡ refusals_fit capacity opening 0 capacity puts.now takes.now }
{
    let mut count = opening as u64;
    let mut place = Place {
        at: 0,
        got: 0,
        floor: capacity as u64,
    };
    for put in puts {
        if *put {
            count += 1;
            continue;
        }
        place = pass(capacity, count, place, takes);
        if count < place.floor {
            return false;
        }
    }
    true
}

// Passes from a place on over the takes of a window that must come before a refused put, and answers the place behind.
// `count` chunks were there or put before that put. An empty take before which fewer were got must come before it.
// So the buffer was empty at that take, and `capacity` chunks more must have come after it: that is the new `floor`.
fn pass(capacity: u32, count: u64, from: Place, takes: &[bool]) -> Place
    requires at { from.at ≤ length takes.now }
    requires got { from.got ≤ from.at }
    ensures at { result.at ≤ length takes.now }
    ensures got { result.got ≤ result.at }
    ensures floor { result.floor ≡ (passed capacity count from.got from.floor (drop from.at takes.now)).floor }
    ensures count { result.got ≡ (passed capacity count from.got from.floor (drop from.at takes.now)).got }
    ensures left { drop result.at takes.now
        ≡ (passed capacity count from.got from.floor (drop from.at takes.now)).left }
{
    let mut place = from;
    while place.at < takes.len() {
        if takes[place.at] {
            place.got += 1;
        } else if place.got < count {
            place.floor = place.got + capacity as u64;
        } else {
            break;
        }
        place.at += 1;
    }
    place
}
