// The outputs of a plan are created.
ghost use Rattle.std.specs.Prelude.{◌≡◌, ◌<◌, ◌≤◌, ◌⊎◌, [], ℕ, List, length, OnOk, OnErr, IsErrOf};
ghost use Rattle.liq_base.specs.Counts.{Rose};
ghost use Rattle.frame_core.specs.Library.{Sounds};
ghost use Rattle.frame_core.specs.Calls.{Answer};
ghost use Rattle.stations.specs.Creations.{after_making, names_in};
ghost use Rattle.stations.specs.Findings.{IsFit};
ghost use Rattle.station_render.specs.OutputSinks.{inner};
ghost use Rattle.station_render.specs.Shelves.{OnlyCreates};
ghost use Rattle.station_render.specs.Sinks.{AreCreated, AreEmpty, HasFailed, lists_of};
ghost use Rattle.trace_records.specs.Traces.{base_of};
ghost use Rattle.station_render.specs.Renders.{AreBegun, IsCutShort, IsOpened, IsReady, NoneCreated, WasCreated};
ghost use Rattle.station_render.specs.Renders.{order_of, written};

use crate::RenderFault;
use crate::headers::{Opening, opening_of};
use crate::output_sink::OutputSink;
use crate::sinks::{add_one, reserve_one};
use clock_infer::ClockMap;
use liq_base::{Shelf, Sink};
use plan_core::{Plan, SinkPlan};

/// Bytes of a header.
const HEADER_BYTES: u64 = 44;

/// Creates the outputs of a plan in sink order, each with its header and with room for the samples of so many ticks.
/// `order` gets the clock of each, and `groups` has the sinks of each clock. After a fault they have those that were
/// created.
pub(crate) fn create_each<S: Shelf>(
    plan: &Plan,
    clocks: &ClockMap,
    ticks: u64,
    shelf: &mut S,
    order: &mut Vec<u32>,
    groups: &mut Vec<Vec<OutputSink<S::Out>>>,
) -> Result<(), RenderFault>
    requires fit { (library : Sounds) × IsFit plan.now library clocks.now ticks }
    requires none { order.old.items ≡ [] }
    requires empty { AreEmpty clocks.now.running (lists_of groups.old.items) }
    ensures ready { OnOk result ((library : Sounds) → (start : ℕ)
        → AreCreated (IsReady S.Out.told (S.told shelf.old) (base_of plan.now library clocks.now start) ticks)
        (written plan.now.sinks) order.new.items (lists_of groups.new.items)) }
    ensures order { OnOk result ((library : Sounds) → (start : ℕ)
        → order.new.items ≡ order_of (base_of plan.now library clocks.now start) (written plan.now.sinks)) }
    ensures begun { (library : Sounds) → (start : ℕ) → (answers : (ℕ → List Answer) → ℕ → List Answer)
        → (made tried : ℕ → ℕ) → ((k : ℕ) → made k ≡ 0)
        → AreBegun S.Out.told (S.told shelf.old) (base_of plan.now library clocks.now start) answers ticks made
        tried order.new.items (lists_of groups.new.items)
        (S.told shelf.new).created }
    ensures size { length (lists_of groups.new.items) ≡ clocks.now.running }
    ensures cause { IsErrOf result RenderFault.Write
        → Rose (S.told shelf.old).writes (S.told shelf.new).writes
        ⊎ HasFailed (inner S.Out.told) (lists_of groups.new.items) }
    ensures made { OnOk result ((S.told shelf.new).created
        ≡ after_making (names_in plan.now.sinks) (S.told shelf.old).created) }
    ensures shelf { OnlyCreates (S.told shelf.old) (S.told shelf.new) }
{
    for sink in plan.sinks.as_slice() {
        let SinkPlan::Output {
            name,
            node,
            wide,
            ..
        } = sink
        else {
            continue;
        };
        let opening = opening_of(plan, clocks, *node, *wide, ticks);
        create_one(shelf, name.as_str(), &opening, order, groups)?;
    }
    Ok(())
}

// Creates an output of this name, with its header as one piece, and adds its sink to those of its clock, also where
// the header was refused, so that it is closed later. Its room is for exactly its bytes, with a zero byte at the end
// if those of its samples are odd.
fn create_one<S: Shelf>(
    shelf: &mut S,
    name: &str,
    opening: &Opening,
    order: &mut Vec<u32>,
    groups: &mut Vec<Vec<OutputSink<S::Out>>>,
) -> Result<(), RenderFault>
    requires below { opening.now.clock < length (lists_of groups.old.items) }
    requires short { opening.now.body ≤ 1000000000000000 }
    ensures created { OnOk result
        (WasCreated (IsOpened S.Out.told (S.told shelf.old) name.now opening.now.header opening.now.body)
        opening.now.clock name.now
        (S.told shelf.old).created (S.told shelf.new).created order.old.items order.new.items
        (lists_of groups.old.items) (lists_of groups.new.items)) }
    ensures broken { OnErr result
        (NoneCreated (S.told shelf.old).created (S.told shelf.new).created order.old.items order.new.items
        (lists_of groups.old.items) (lists_of groups.new.items)
        ⊎ WasCreated (IsCutShort S.Out.told (S.told shelf.old) name.now opening.now.header) opening.now.clock name.now
        (S.told shelf.old).created (S.told shelf.new).created order.old.items order.new.items
        (lists_of groups.old.items) (lists_of groups.new.items)) }
    ensures cause { IsErrOf result RenderFault.Write
        → Rose (S.told shelf.old).writes (S.told shelf.new).writes
        ⊎ HasFailed (inner S.Out.told) (lists_of groups.new.items) }
    ensures shelf { OnlyCreates (S.told shelf.old) (S.told shelf.new) }
{
    order.reserve(1)?;
    reserve_one(groups, opening.clock)?;
    let zeros = opening.body % 2;
    let mut sink = shelf.create(name, HEADER_BYTES + opening.body + zeros)?;
    let wrote = sink.append(&opening.header);
    order.push(opening.clock).unwrap();
    let odd = zeros == 1;
    add_one(groups, opening.clock, OutputSink { sink, odd });
    wrote?;
    Ok(())
}
