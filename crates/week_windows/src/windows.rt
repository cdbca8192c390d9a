// The windows of some spans of the week.
ghost use Rattle.std.specs.Prelude.{◌≡◌, ◌∷◌, map};
ghost use Rattle.week_windows.specs.Windows.{ends_week, in_all, lengths_of, seconds_of};

use week_plan::Span;

/// The seconds of a week.
const WEEK: u32 = 604_800;

/// How many windows a case has in the week, and how long they are. The week goes round: a window may go over its end.
#[derive(Clone, Copy, Debug, PartialEq, Eq)]
pub struct Windows {
    /// How many there are.
    pub count: u64,

    /// The seconds of the shortest one; 0 of none.
    pub shortest: u64,

    /// The seconds of the longest one; 0 of none.
    pub longest: u64,
}

/// How many windows these spans of a week make, in order, and how long they are. The week goes round, so a span that
/// ends with the week and one that begins it are one window.
pub fn windows_in(spans: &[Span]) -> Windows
    ensures { result ≡ in_all (lengths_of spans.now) }
{
    match spans {
        [] => measured(spans, 0),
        [first, rest @ ..] => {
            if first.from == 0 && ends_week(rest) {
                measured(rest, first.to)
            } else {
                measured(spans, 0)
            }
        }
    }
}

// Whether one of these spans ends with the week.
fn ends_week(spans: &[Span]) -> bool
    ensures { result ≡ ends_week spans.now }
{
    for span in spans {
        if span.to == WEEK {
            return true;
        }
    }
    false
}

// How many windows these spans of a week are, and how long; the span that ends with the week goes on for `more`
// seconds at its beginning.
fn measured(spans: &[Span], more: u32) -> Windows
    ensures { result ≡ in_all (map (seconds_of more) spans.now) }
{
    match spans {
        [] => Windows {
            count: 0,
            shortest: 0,
            longest: 0,
        },
        [first, rest @ ..] => measured_from(*first, rest, more),
    }
}

// How many windows these spans of a week are, the first one apart, and how long; the span that ends with the week goes
// on for `more` seconds at its beginning.
fn measured_from(first: Span, rest: &[Span], more: u32) -> Windows
    ensures { result ≡ in_all (seconds_of more first ∷ map (seconds_of more) rest.now) }
{
    let mut shortest = seconds_of(first, more);
    let mut longest = shortest;
    for span in rest {
        let seconds = seconds_of(*span, more);
        shortest = shortest.min(seconds);
        longest = longest.max(seconds);
    }
    Windows {
        count: rest.len() as u64 + 1,
        shortest,
        longest,
    }
}

// How many seconds a span has; if it ends with the week, it goes on for `more` seconds.
fn seconds_of(span: Span, more: u32) -> u64
    ensures { result ≡ seconds_of more span }
{
    let own = u64::from(span.to.saturating_sub(span.from));
    if span.to == WEEK {
        own + u64::from(more)
    } else {
        own
    }
}
