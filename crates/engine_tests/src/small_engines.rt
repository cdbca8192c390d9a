//! Engines of plans with one output, and what ticks of them have to show. The file has the samples 1, 2 and 3.
ghost use Rattle.std.specs.Prelude.{◌≡◌, Some, length, slice_get, IfOk};
ghost use Rattle.plan_core.specs.Plans.{IsWellFormed};
ghost use Rattle.plan_samples.specs.Stereos.{sole_node};
ghost use Rattle.clock_infer.specs.Answers.{IsClockMap};
ghost use Rattle.clock_infer.specs.declared.clock_map.NodeClock.{NodeClock};
ghost use Rattle.frame_core.specs.Library.{IsLibrary};
ghost use Rattle.clock_ticks.specs.Engines.{setting_of};
ghost use Rattle.engine_tests.specs.SettingOver.{setting_over};

use crate::small_plans::{Row, lies_in, one_of, plan_of};
use buffer_ends::LocalTaps;
use clock_infer::{ClockMap, assign};
use clock_ticks::{ClockEngine, TickFault};
use fixed_text::WeekSecond;
use frame_core::Library;
use liq_base::{MemSink, Memory};
use plan_core::Plan;
use std::alloc::{AllocError, Global};
use std::process::Abort;
use std::test::Fail;

// One sink in memory with ample room, for the one output of a test's plan.
fn one_sink(alloc: Global) -> Result<Vec<MemSink>, Fail>
    ensures { IfOk result (λ outs. length outs.items ≡ 1) }
{
    let out = MemSink::new(alloc, 40_000, Vec::new(alloc))?;
    Ok(Vec::from_array(alloc, [out])?)
}

// Makes the engine of main clock 0 of a plan, to begin at the first second of the week. `node` is the source of the
// plan's one output, whose sink is in `outs`. `Err` gives the sinks back where memory is refused.
fn begun<'a>(
    alloc: Global,
    plan: &'a Plan,
    clocks: &'a ClockMap,
    node: u32,
    library: &'a Library,
    outs: Vec<MemSink>,
) -> Result<ClockEngine<'a, MemSink>, (Vec<MemSink>, Memory)>
    requires plan { IsWellFormed plan.now }
    requires clocks { IsClockMap plan.now clocks.now }
    requires library { IsLibrary library.now }
    requires leaves { length library.now.leaves ≡ length plan.now.nodes }
    requires sinks { sole_node plan.now.sinks ≡ Some node }
    requires clock { slice_get clocks.now.of node ≡ Some (NodeClock.Main 0) }
    requires one { length outs.items ≡ 1 }
    ensures setting { IfOk result (λ engine. setting_of engine.parts ≡ setting_over plan.now library.now clocks.now) }
    ensures clock { IfOk result (λ engine. engine.parts.clock ≡ 0) }
    ensures new { IfOk result (λ engine. engine.parts.ticks ≡ 0) }
{
    let start = WeekSecond { second: 0 };
    ClockEngine::new(alloc, plan, clocks, 0, library, outs, start)
}

// Makes one tick of an engine that runs and has not stopped. `taps` are the ends of the plan's buffers.
fn tick(
    rt: &impl Abort,
    alloc: Global,
    engine: &mut ClockEngine<'_, MemSink>,
    taps: &mut LocalTaps,
) -> Result<(), TickFault>
    requires buffers { length taps.old ≡ length (setting_of engine.old.parts).plan.buffers }
    ensures buffers { length taps.new ≡ length taps.old }
    ensures setting { setting_of engine.new.parts ≡ setting_of engine.old.parts }
    ensures clock { engine.new.parts.clock ≡ engine.old.parts.clock }
{
    assert!(rt; engine.ticks() < 1_000_000_000);
    assert!(rt; engine.stopped().is_none());
    engine.tick(alloc, taps)
}

/// What ticks have to show.
#[derive(Clone, Copy)]
pub(crate) struct Want {
    /// How many are made.
    pub(crate) ticks: u64,

    /// How many segments all have.
    pub(crate) segments: u64,

    /// What the sink holds, where it is told.
    pub(crate) held: Option<&'static [u8]>,
}

// Checks that an engine makes as many ticks as `want` says without a fault, and in all of them as many segments. `taps`
// are the ends of the plan's buffers.
fn check_ticks(
    rt: &impl Abort,
    alloc: Global,
    engine: &mut ClockEngine<'_, MemSink>,
    taps: &mut LocalTaps,
    want: Want,
)
    requires buffers { length taps.old ≡ length (setting_of engine.old.parts).plan.buffers }
{
    for _ in 0..want.ticks {
        assert!(rt; tick(rt, alloc, engine, taps).is_ok());
    }
    assert!(rt; engine.ticks() == want.ticks);
    assert!(rt; engine.segments() == want.segments);
}

// Checks that there is one sink and that it holds the bytes `held`; with `None` any bytes will do.
fn check_held(rt: &impl Abort, outs: &[MemSink], held: Option<&[u8]>) {
    assert_eq!(rt; outs.len(), 1);
    for out in outs {
        if let Some(held) = held {
            assert_eq!(rt; out.held(), held);
        }
    }
}

// Checks that ticks of main clock 0, over this plan whose output is `node`, show what `want` says. `clocks` is the map
// of the plan's clocks, `library` has its files, and `taps` are the ends of its buffers.
fn check_clock(
    rt: &impl Abort,
    alloc: Global,
    plan: &Plan,
    clocks: &ClockMap,
    node: u32,
    library: &Library,
    taps: &mut LocalTaps,
    want: Want,
) -> Result<(), Fail>
    requires plan { IsWellFormed plan.now }
    requires clocks { IsClockMap plan.now clocks.now }
    requires library { IsLibrary library.now }
    requires leaves { length library.now.leaves ≡ length plan.now.nodes }
    requires sinks { sole_node plan.now.sinks ≡ Some node }
    requires clock { slice_get clocks.now.of node ≡ Some (NodeClock.Main 0) }
    requires buffers { length taps.old ≡ length plan.now.buffers }
{
    let outs = one_sink(alloc)?;
    match begun(alloc, plan, clocks, node, library, outs) {
        Ok(mut engine) => {
            check_ticks(rt, alloc, &mut engine, taps, want);
            check_held(rt, &engine.into_outs(), want.held);
            Ok(())
        }
        Err((_, refused)) => Err(Fail::from(refused)),
    }
}

// Checks that ticks of a plan whose output is `node` show what `want` says. `library` has the plan's files, and the
// clocks are those that the plan is assigned.
fn check_library(
    rt: &impl Abort,
    alloc: Global,
    plan: &Plan,
    node: u32,
    library: &Library,
    want: Want,
) -> Result<(), Fail>
    requires plan { IsWellFormed plan.now }
    requires library { IsLibrary library.now }
    requires leaves { length library.now.leaves ≡ length plan.now.nodes }
    requires sinks { sole_node plan.now.sinks ≡ Some node }
{
    let clocks = assign(alloc, plan)?;
    assert!(rt; lies_in(&clocks, node, 0));
    let mut taps = LocalTaps::new(alloc, plan)?;
    check_clock(rt, alloc, plan, &clocks, node, library, &mut taps, want)
}

// Checks that ticks of a plan whose output is `node` show what `want` says. Its first node plays the file of three
// samples.
fn check_plan(
    rt: &impl Abort,
    alloc: Global,
    plan: &Plan,
    node: u32,
    want: Want,
) -> Result<(), Fail>
    requires plan { IsWellFormed plan.now }
    requires sinks { sole_node plan.now.sinks ≡ Some node }
{
    let count = plan.nodes.len();
    assert!(rt; count >= 1 && count <= 5);
    let library = one_of(alloc, count)?;
    check_library(rt, alloc, plan, node, &library, want)
}

// The number of the last node of a small plan with these nodes.
fn last(rows: &[Row]) -> u32 {
    u32::try_from(rows.len().saturating_sub(1)).unwrap_or(0)
}

/// Checks that ticks of `frame` samples show what `want` says, over the plan that has these nodes and writes the last
/// one.
pub(crate) fn check_rows(
    rt: &impl Abort,
    alloc: Global,
    frame: u32,
    rows: &[Row],
    want: Want,
) -> Result<(), Fail> {
    let node = last(rows);
    let plan = plan_of(rt, alloc, frame, rows, node)?;
    check_plan(rt, alloc, &plan, node, want)
}
