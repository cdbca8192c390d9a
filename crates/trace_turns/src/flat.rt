// The answers of a buffer, window after window.
ghost use Rattle.std.specs.Prelude.{◌≡◌, IfOk};
ghost use Rattle.std.specs.List.{flat_map};
ghost use Rattle.trace_turns.specs.Logs.{AreEndsOf, side_of};

use buffer_ends::WindowLog;
use liq_base::Memory;
use std::alloc::Global;

// The answers of one end of a buffer in a window: of its puts, if `puts`, and otherwise of its takes. A put answers
// `true` if the chunk was accepted, and a take if it got one.
fn side_of(window: &WindowLog, puts: bool) -> &[bool]
    ensures { result.now ≡ side_of puts window.now }
{
    if puts {
        return &window.puts;
    }
    &window.takes
}

/// Joins the answers of one end of a buffer over all windows: those of its puts if `puts`, and otherwise of its takes.
/// The second list has for each window how many answers there are up to its end.
pub fn flatten(
    alloc: Global,
    windows: &[WindowLog],
    puts: bool,
) -> Result<(Vec<bool>, Vec<usize>), Memory>
    ensures flat { IfOk result (λ r. r.0.items ≡ flat_map (side_of puts) windows.now) }
    ensures ends { IfOk result (λ r. AreEndsOf puts windows.now r.1.items) }
{
    let mut flat = Vec::new(alloc);
    let mut ends = Vec::with_capacity(alloc, windows.len())?;
    for window in windows {
        flat.extend_from_slice(side_of(window, puts))?;
        ends.push(flat.len())?;
    }
    Ok((flat, ends))
}
