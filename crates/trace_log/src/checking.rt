// The first line of a text that is outside the form of a trace.
ghost use Rattle.std.specs.Prelude.{IfSome, IsNone};
ghost use Rattle.trace_log.specs.Stops.{IsText, StopsAt};

use crate::cutting::{cut_header, cut_line};

/// The first line, counted from 0, that is outside the form of a trace; `None` exactly for the text of a trace. After
/// line 0 there is a line for each window and in it for each buffer, and then nothing. It takes no memory.
#[tactic(auto, using(crate::proofs::Joins::some_inside))]
pub(crate) fn first_fault(text: &[u8]) -> Option<u64>
    ensures stops { IfSome result (λ at. StopsAt text.now at) }
    ensures whole { IsNone result → IsText text.now }
{
    let Some((ticks, window, many, behind)) = cut_header(text) else {
        return Some(0);
    };
    let places = (ticks + (window - 1)) / window * many;
    let mut rest = behind;
    for place in 0..places {
        let Some((_, _, after)) = cut_line(rest, place / many, place % many) else {
            return Some(place + 1);
        };
        rest = after;
    }
    if rest.is_empty() {
        return None;
    }
    Some(places + 1)
}
