// Where the windows of a buffer end.
ghost use Rattle.std.specs.Prelude.{◌≡◌, ◌<◌, ◌≤◌, Some, slice_get, length, true, false};
ghost use Rattle.trace_turns.specs.Turns.{AreAtEnd, EndsWith, GoesOn, IsAtEnd, IsOffEnd};

use crate::course::Course;
use crate::told::ToldBuffer;

/// For each window of a buffer, how many answers of puts, and of takes, there are up to its end.
#[derive(Debug, Drop)]
pub struct Ends {
    pub puts: Vec<usize>,
    pub takes: Vec<usize>,
}

// Whether a clock that made `at` puts, or takes, on a buffer is at the end of window number `window`; `ends` has for
// each window how many there are up to its end.
fn is_at(ends: &[usize], window: u64, at: usize) -> bool
    ensures right { result ≡ true → slice_get ends.now window ≡ Some at }
    ensures wrong { result ≡ false → slice_get ends.now window ≡ Some at → ⊥ }
{
    if window >= ends.len() as u64 {
        return false;
    }
    ends[window as usize] == at
}

// Whether the clock whose run it is made just the calls on a buffer that there are up to the end of this window.
// Its puts count if it feeds the buffer, and its takes if it reads it.
fn at_end(buffer: &ToldBuffer, ends: &Ends, window: u64) -> bool
    ensures right { result ≡ true → IsAtEnd buffer.now ends.now window }
    ensures wrong { result ≡ false → IsAtEnd buffer.now ends.now window → ⊥ }
{
    if buffer.fed && !is_at(&ends.puts, window, buffer.put_at) {
        return false;
    }
    if buffer.read && !is_at(&ends.takes, window, buffer.take_at) {
        return false;
    }
    true
}

// Whether the clock made just the calls that there are up to the end of this window, on all buffers it feeds or reads.
fn at_ends(buffers: &[ToldBuffer], ends: &[Ends], window: u64) -> bool
    requires { length ends.now ≡ length buffers.now }
    ensures right { result ≡ true → AreAtEnd buffers.now ends.now window }
    ensures wrong { result ≡ false → IsOffEnd buffers.now ends.now window }
{
    for b in 0..buffers.len() {
        if !at_end(&buffers[b], &ends[b], window) {
            return false;
        }
    }
    true
}

// Whether some window ends with tick number `tick`, in a run of `ticks` ticks in windows of `window` ticks.
fn ends_with(window: u64, ticks: u64, tick: u64) -> bool
    requires some { 1 ≤ window }
    requires within { tick < ticks }
    ensures yes { result ≡ true → EndsWith window ticks tick }
    ensures no { result ≡ false → EndsWith window ticks tick → ⊥ }
{
    if tick % window == window - 1 {
        return true;
    }
    tick == ticks - 1
}

/// Judges how a clock's run of `ticks` ticks goes on after tick number `tick`; `course` says how its calls were met.
/// It is answered as it came, but `Fails` where a window of `window` ticks ends with this tick and the clock made more
/// or fewer calls than the trace tells up to there.
pub fn course_of(
    course: Course,
    buffers: &[ToldBuffer],
    ends: &[Ends],
    window: u64,
    ticks: u64,
    tick: u64,
) -> Course
    requires some { 1 ≤ window }
    requires within { tick < ticks }
    requires long { length ends.now ≡ length buffers.now }
    ensures { GoesOn window ticks tick course buffers.now ends.now result }
{
    match course {
        Course::Goes => {
            if ends_with(window, ticks, tick) && !at_ends(buffers, ends, tick / window) {
                return Course::Fails;
            }
            Course::Goes
        }
        Course::Waits => Course::Waits,
        Course::Fails => Course::Fails,
    }
}
