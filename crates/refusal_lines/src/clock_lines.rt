// The lines of scripts whose sources have no clocks.
ghost use Rattle.std.specs.Prelude.{◌≡◌, ◌++◌, IfOk, codes, decimal, string_bytes};
ghost use Rattle.refusal_lines.specs.Forms.{of_clocks as form};
ghost use Rattle.refusal_lines.specs.Lines.{clock_line, clock_in_words};

use crate::forms::{of_clocks, plain};
use clock_infer::{ClockFault, ClockName};
use liq_base::Memory;
use std::alloc::Global;

/// The line that is printed for a plan whose sources can have no clocks. Want of memory is no refusal, so its line is
/// empty.
pub fn clock_line(alloc: Global, fault: &ClockFault) -> Result<String, Memory>
    ensures { IfOk result (λ line. string_bytes line ≡ clock_line fault.now) }
{
    match fault {
        ClockFault::TwoClocks {
            node,
            first,
            second,
        } => two_clocks(alloc, *node, first, second),
        ClockFault::Nested { node } => nested(alloc, *node),
        ClockFault::TooManyClocks => plain(alloc, "E28 too many clocks"),
        ClockFault::Memory => Ok(String::new(alloc)),
    }
}

// The line for source number `node`, which would have to lie in the clocks `first` and `second` at once.
fn two_clocks(
    alloc: Global,
    node: u32,
    first: &ClockName,
    second: &ClockName,
) -> Result<String, Memory>
    ensures { IfOk result (λ line. string_bytes line
        ≡ form (codes "E26 source") node (clock_in_words first.now) (clock_in_words second.now)) }
{
    let first = clock_name(alloc, first)?;
    let second = clock_name(alloc, second)?;
    of_clocks(alloc, "E26 source", node, &first, &second)
}

// How a printed line calls a clock in which a source must lie: by its id, by the crossfade that drives it, or, where it
// may be any main clock, as that of an output.
fn clock_name(alloc: Global, clock: &ClockName) -> Result<String, Memory>
    ensures { IfOk result (λ name. string_bytes name ≡ clock_in_words clock.now) }
{
    match clock {
        ClockName::Named(id) => Ok(String::from_str(alloc, id.as_str())?),
        ClockName::Sub(node) => sub_clock(alloc, *node),
        ClockName::AnyMain => Ok(String::from_str(alloc, "an output")?),
    }
}

// How a printed line calls the clock which a crossfade, source number `node`, drives itself.
fn sub_clock(alloc: Global, node: u32) -> Result<String, Memory>
    ensures { IfOk result (λ name. string_bytes name ≡ codes "crossfade " ++ decimal node) }
{
    Ok(format!(in alloc; "crossfade {node}")?)
}

// The line for a crossfade, source number `node`, that lies in the clock which it drives itself.
fn nested(alloc: Global, node: u32) -> Result<String, Memory>
    ensures { IfOk result (λ line. string_bytes line
        ≡ codes "E27 crossfade " ++ decimal node ++ codes " lies in its own clock\n") }
{
    Ok(format!(in alloc; "E27 crossfade {node} lies in its own clock\n")?)
}
