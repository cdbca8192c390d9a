// The outputs of a plan are opened, with the engines that write into them.
ghost use Rattle.std.specs.Prelude.{◌≡◌, ◌≤◌, ◌⊎◌, ℕ, [], IfErr, IfOk, IsErrOf, OnErr, OnOk};
ghost use Rattle.std.specs.Option.{ForSome};
ghost use Rattle.liq_base.specs.Counts.{Rose};
ghost use Rattle.stations.specs.Creations.{CreatedFront, after_making, names_in};
ghost use Rattle.stations.specs.Renderings.{WrotePart};
ghost use Rattle.stations.specs.Stations.{Way};
ghost use Rattle.station_render.specs.Engines.{AreKeeping};
ghost use Rattle.station_render.specs.EngineRuns.{AreOpened};
ghost use Rattle.station_render.specs.Faults.{is_device};
ghost use Rattle.station_render.specs.OutputSinks.{inner};
ghost use Rattle.station_render.specs.Runs.{HasRecord, IsFitting, RanPart, setting_by, station_in};
ghost use Rattle.station_render.specs.Shelves.{OnlyCreates};
ghost use Rattle.station_render.specs.Sinks.{AreEmpty, HasFailed, lists_of};
ghost use Rattle.station_render.specs.Stages.{HaveOpened, OnlyOpened};

use crate::close::close_broken;
use crate::create::create_each;
use crate::engines::make_engines;
use crate::output_sink::OutputSink;
use crate::sinks::no_sinks;
use crate::{Job, RenderFault};
use clock_ticks::ClockEngine;
use liq_base::Shelf;
use std::alloc::Global;

/// The places of the sinks: the clock of each, in sink order, and for each clock a list, into which its engine gives
/// its sinks back.
pub(crate) struct Places<O> {
    pub order: Vec<u32>,
    pub groups: Vec<Vec<O>>,
}

/// The first part of a rendering: creates the outputs in sink order, and makes the engines of all clocks, which take
/// the sinks. Answers the places to which the sinks go back, and the engines in clock order. After a fault it closes
/// what it created.
pub(crate) fn open_outputs<'a, S: Shelf>(
    alloc: Global,
    job: &'a Job<'_>,
    shelf: &mut S,
) -> Result<
    (
        Places<OutputSink<S::Out>>,
        Vec<ClockEngine<'a, OutputSink<S::Out>>>,
    ),
    RenderFault,
>
    requires fit { IsFitting job.now }
    ensures opened { IfOk result
        (λ opened. HaveOpened S.Out.told (S.told shelf.old) job.now opened.0.order.items
        (lists_of opened.0.groups.items) opened.1.items) }
    ensures part { IfErr result (λ fault. (way : Way)
        → HasRecord (setting_by job.now) job.now.ready.clocks.running job.now.ticks way
        → ForSome (S.told shelf.old).files
        (λ files. WrotePart (station_in job.now way) (is_device fault) files (S.told shelf.old) (S.told shelf.new))) }
    ensures cause { IsErrOf result RenderFault.Write → Rose (S.told shelf.old).writes (S.told shelf.new).writes }
    ensures shelf { OnOk result (OnlyOpened job.now (S.told shelf.old) (S.told shelf.new)) }
    ensures front { OnErr result
        (CreatedFront (names_in job.now.plan.sinks) (S.told shelf.old) (S.told shelf.new)) }
    ensures reads { (S.told shelf.old).reads ≤ (S.told shelf.new).reads }
    ensures writes { (S.told shelf.old).writes ≤ (S.told shelf.new).writes }
{
    let mut order = Vec::new(alloc);
    let mut groups = no_sinks(alloc, job.ready.clocks.running)?;
    match open_all(alloc, job, shelf, &mut order, &mut groups) {
        Ok(engines) => Ok((Places { order, groups }, engines)),
        Err(fault) => Err(close_broken(shelf, &order, groups, fault)),
    }
}

// Creates the outputs of a job, and makes the engines that write them. `order` gets the clock of each sink that is
// created; `groups` gets the sinks of each clock, where engines are not made.
fn open_all<'a, S: Shelf>(
    alloc: Global,
    job: &'a Job<'_>,
    shelf: &mut S,
    order: &mut Vec<u32>,
    groups: &mut Vec<Vec<OutputSink<S::Out>>>,
) -> Result<Vec<ClockEngine<'a, OutputSink<S::Out>>>, RenderFault>
    requires fit { IsFitting job.now }
    requires none { order.old.items ≡ [] }
    requires empty { AreEmpty job.now.ready.clocks.running (lists_of groups.old.items) }
    ensures opened { IfOk result
        (λ engines. AreOpened S.Out.told (S.told shelf.old) (setting_by job.now) job.now.ready.clocks job.now.ticks
        order.new.items engines.items (lists_of groups.new.items)) }
    ensures keeping { IfOk result (λ engines. AreKeeping job.now.cues engines.items) }
    ensures part { OnErr result ((way : Way)
        → HasRecord (setting_by job.now) job.now.ready.clocks.running job.now.ticks way
        → (ran : RanPart S.Out.told (S.told shelf.old) (station_in job.now way) order.new.items
        (lists_of groups.new.items) (S.told shelf.new).created) × ((m : ℕ) → ran.begun.made m ≡ 0)) }
    ensures cause { IsErrOf result RenderFault.Write
        → Rose (S.told shelf.old).writes (S.told shelf.new).writes
        ⊎ HasFailed (inner S.Out.told) (lists_of groups.new.items) }
    ensures made { OnOk result ((S.told shelf.new).created
        ≡ after_making (names_in job.now.plan.sinks) (S.told shelf.old).created) }
    ensures shelf { OnlyCreates (S.told shelf.old) (S.told shelf.new) }
{
    create_each(
        &job.plan,
        &job.ready.clocks,
        job.ticks,
        shelf,
        order,
        groups,
    )?;
    Ok(make_engines(alloc, job, groups)?)
}
