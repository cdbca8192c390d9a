// The ids of clocks.
ghost use Rattle.std.specs.Prelude.{◌≡◌, [], IfOk, string_bytes};
ghost use Rattle.clock_forcings.specs.Forcings.{id_or};

use liq_base::{Memory, Text};
use std::alloc::Global;

/// The id of the clock of node k, a `clock(..)`: `written`, which the script wrote, or `clock.k` if it wrote none.
pub fn id_of(alloc: Global, k: u64, written: &Text) -> Result<String, Memory>
    ensures { IfOk result (λ id. string_bytes id ≡ id_or k written.now) }
{
    if written.as_str().is_empty() {
        return numbered(alloc, k);
    }
    Ok(String::from_str(alloc, written.as_str())?)
}

// The id of clock node k, for which the script wrote none: `clock.k`.
fn numbered(alloc: Global, k: u64) -> Result<String, Memory>
    ensures { IfOk result (λ id. string_bytes id ≡ id_or k []) }
{
    Ok(format!(in alloc; "clock.{k}")?)
}
