// The sinks of the outputs that were created.
ghost use Rattle.std.specs.Prelude.{◌≡◌, ◌<◌, ◌≤◌, ◌∷◌, [], ◌++◌, length, slice_get, Some, IfOk, OnOk, vec_len};
ghost use Rattle.std.specs.Prelude.{vec_capacity};
ghost use Rattle.station_render.specs.Sinks.{AreEmpty, HasPlace, WasAdded, lists_of};

use liq_base::Memory;
use std::alloc::{AllocError, Global};

/// The list of each clock's sinks before any is created: one empty list for each of so many clocks.
pub(crate) fn no_sinks<O>(alloc: Global, clocks: u32) -> Result<Vec<Vec<O>>, AllocError>
    ensures { IfOk result (λ groups. AreEmpty clocks (lists_of groups.items)) }
{
    let mut groups = Vec::with_capacity(alloc, clocks as usize)?;
    for _clock in 0..clocks {
        groups.push(Vec::new(alloc)).unwrap();
    }
    Ok(groups)
}

/// Makes room for one more sink in this clock's list.
pub(crate) fn reserve_one<O>(groups: &mut Vec<Vec<O>>, clock: u32) -> Result<(), AllocError>
    requires { clock < length (lists_of groups.old.items) }
    ensures same { lists_of groups.new.items ≡ lists_of groups.old.items }
    ensures place { OnOk result (HasPlace clock groups.new.items) }
{
    groups[clock as usize].reserve(1)
}

/// Adds a sink to this clock's list, where there is room for it.
pub(crate) fn add_one<O>(groups: &mut Vec<Vec<O>>, clock: u32, sink: O)
    requires below { clock < length (lists_of groups.old.items) }
    requires place { HasPlace clock groups.old.items }
    ensures { WasAdded clock sink (lists_of groups.old.items) (lists_of groups.new.items) }
{
    groups[clock as usize].push(sink).unwrap();
}
