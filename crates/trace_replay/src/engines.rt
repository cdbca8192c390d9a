// The engines of a replay, turn after turn.
ghost use Rattle.std.specs.Prelude.{◌≡◌, ◌<◌, ◌≤◌, ℕ, IfErr, IfOk, OnErr, OnOk, get_or, length};
ghost use Rattle.buffer_ends.specs.declared.run_end.End.TheVariants.{Done, Memory as NoMemory, Write as WriteEnd};
ghost use Rattle.clock_ticks.specs.declared.engine.ClockEngine.{ClockEngine as Engine};
ghost use Rattle.clock_ticks.specs.declared.fault.TickFault.TheVariants.{Memory as OutOfMemory, Write as TickWrite};
ghost use Rattle.stream_meaning.specs.Settings.{IsSetting};
ghost use Rattle.run_records.specs.Records.{Run, setting_in};
ghost use Rattle.rounds_run.specs.Rounds.{AreEngines};
ghost use Rattle.rounds_run.specs.Runs.{HaveRunTicks};
ghost use Rattle.trace_turns.specs.declared.course.Course.TheVariants.{Goes as IsGoing};
ghost use Rattle.trace_turns.specs.Answering.{SameBuffers};
ghost use Rattle.trace_turns.specs.Turns.{base_at, AreSides, Score};
ghost use Rattle.trace_replay.specs.Replaying.{AreNewRests, ArePlaying, HasPlayed, HasSinkFailed, IsBrokenOff};
ghost use Rattle.trace_replay.specs.Replaying.{IsNewRest, IsReplaying, MayPlayAll, MayPlayOn, MayReplay, Tale};
ghost use Rattle.trace_replay.specs.Replaying.{progress, score_over, tale_at};
ghost use Rattle.trace_replay.specs.Replays.{HasReplayedTo};
ghost use Rattle.trace_records.specs.Traces.{IsRecordOf};

use buffer_ends::End;
use clock_ticks::{ClockEngine, TickFault};
use liq_base::{Memory, Sink};
use std::alloc::Global;
use trace_log::Trace;
use trace_turns::{
    Course, Mark, NO_MARK, Sides, Station, ToldTaps, TurnMade, let_go_run, mark_run, resume_run,
};

/// Where an engine rests between two turns of its clock: how many ticks it has made, and how far its calls came on each
/// buffer.
#[derive(Drop)]
pub struct Rest {
    pub made: u64,
    pub marks: Vec<Mark>,
}

/// Makes the ticks of a clock from number `made` up to `ticks` in all, in a replay. `taps` are the buffers, which
/// answer as the trace tells and hold the chunks that the clock gets. The first fault ends it.
pub fn replay_clock<O: Sink>(
    alloc: Global,
    engine: &mut ClockEngine<'_, O>,
    taps: &mut ToldTaps,
    made: u64,
    ticks: u64,
) -> Result<(), TickFault>
    requires few { ticks ≤ 1000000000 }
    requires goes { taps.old.course ≡ IsGoing }
    requires play { (score : Score) × (total : ℕ) × (first : Engine O)
        × MayReplay O.told score total engine.old.parts.clock made ticks first engine.old taps.old.buffers.items }
    ensures done { OnOk result ((score : Score) (total : ℕ) (first : Engine O)
        → MayReplay O.told score total engine.old.parts.clock made ticks first engine.old taps.old.buffers.items
        → IsReplaying O.told score total engine.old.parts.clock ticks first engine.new taps.new.buffers.items) }
    ensures same { OnOk result (SameBuffers taps.old.buffers.items taps.new.buffers.items) }
    ensures part { OnErr result ((score : Score) (total : ℕ) (first : Engine O)
        → MayReplay O.told score total engine.old.parts.clock made ticks first engine.old taps.old.buffers.items
        → IsBrokenOff O.told score total engine.old.parts.clock ticks first engine.new) }
    ensures cause { IfErr result (λ fault. (score : Score) (total : ℕ) (first : Engine O) (sink : ℕ)
        → MayReplay O.told score total engine.old.parts.clock made ticks first engine.old taps.old.buffers.items
        → fault ≡ TickWrite sink → HasSinkFailed O.told sink first engine.new) }
{
    for _tick in made..ticks {
        engine.tick(alloc, taps)?;
    }
    Ok(())
}

// Makes one turn of a clock in a replay: its engine goes on from where it rests, up to `ticks` ticks in all. `rest` has
// its ticks and its marks on the buffers (`taps`) so far, and `sides` the clocks at the ends of each buffer. Chunks
// that no clock gets any more are let go.
fn replay_turn<O: Sink>(
    alloc: Global,
    engine: &mut ClockEngine<'_, O>,
    rest: &mut Rest,
    taps: &mut ToldTaps,
    sides: &Sides,
    ticks: u64,
) -> Result<(), TickFault>
    requires few { ticks ≤ 1000000000 }
    requires play { (tale : Tale) × (first : Engine O)
        × MayPlayOn O.told tale sides.now ticks first engine.old rest.old taps.old.buffers.items }
    ensures done { OnOk result ((tale : Tale) (first : Engine O)
        (may : MayPlayOn O.told tale sides.now ticks first engine.old rest.old taps.old.buffers.items)
        → HasPlayed O.told tale sides.now engine.old.parts.clock ticks (progress first engine.new rest.new.marks.items)
        may.full taps.old.buffers.items taps.new.buffers.items may.next) }
    ensures made { OnOk result (rest.new.made ≡ ticks) }
    ensures part { OnErr result ((tale : Tale) (first : Engine O)
        (may : MayPlayOn O.told tale sides.now ticks first engine.old rest.old taps.old.buffers.items)
        → IsBrokenOff O.told (score_over tale may.full) tale.ticks engine.old.parts.clock ticks first engine.new) }
    ensures cause { IfErr result (λ fault. (tale : Tale) (first : Engine O) (sink : ℕ)
        → MayPlayOn O.told tale sides.now ticks first engine.old rest.old taps.old.buffers.items
        → fault ≡ TickWrite sink → HasSinkFailed O.told sink first engine.new) }
{
    resume_run(
        &mut taps.buffers,
        &sides.feeders,
        &sides.readers,
        engine.clock(),
        &rest.marks,
    );
    taps.course = Course::Goes;
    replay_clock(alloc, engine, taps, rest.made, ticks)?;
    rest.made = ticks;
    mark_run(&taps.buffers, &mut rest.marks);
    let_go_run(&mut taps.buffers);
    Ok(())
}

// Where an engine rests before its first tick of a replay: no tick is made, and on each of so many buffers its mark,
// how far its calls came, stands before the first call.
fn new_rest(alloc: Global, buffers: usize) -> Result<Rest, Memory>
    ensures { IfOk result (λ rest. IsNewRest buffers rest) }
{
    let marks = vec![in alloc; NO_MARK; buffers]?;
    Ok(Rest { made: 0, marks })
}

// Where each of `count` engines rests before its first tick of a replay, over so many buffers.
fn new_rests(alloc: Global, count: usize, buffers: usize) -> Result<Vec<Rest>, Memory>
    ensures { IfOk result (λ rests. AreNewRests count buffers rests.items) }
{
    let mut rests = Vec::new(alloc);
    for _engine in 0..count {
        rests.reserve(1)?;
        let rest = new_rest(alloc, buffers)?;
        rests.push_reserved(rest);
    }
    Ok(rests)
}

// Why a replay ends at a fault of the engine of this clock: a write to a sink that failed, told with the number of the
// clock, or want of memory.
fn end_of(clock: u32, fault: TickFault) -> End
    ensures write { (sink : ℕ) → fault ≡ TickWrite sink → result ≡ WriteEnd clock sink }
    ensures memory { fault ≡ OutOfMemory → result ≡ NoMemory }
    ensures stopped { result ≡ Done → ⊥ }
{
    match fault {
        TickFault::Write { sink } => End::Write { clock, sink },
        TickFault::Memory => End::Memory,
    }
}

// The turn of number i of a list, from 0: a clock, and the ticks that it comes to.
fn turn_at(turns: &[TurnMade], i: usize) -> TurnMade
    requires { i < length turns.now }
    ensures { result ≡ get_or turns.now i result }
{
    turns[i]
}

// Makes all turns of a replay in their order; in each, the engine of one clock goes on from where it rests. `taps` are
// the buffers, and `sides` tells the clocks at the ends of each. `station` and `trace` are for the contract alone. The
// first fault ends it.
fn replay_turns<O: Sink>(
    alloc: Global,
    station: &Station<'_>,
    engines: &mut [ClockEngine<'_, O>],
    rests: &mut [Rest],
    taps: &mut ToldTaps,
    sides: &Sides,
    turns: &[TurnMade],
    trace: &Trace,
) -> Result<(), End>
    requires few { trace.now.ticks ≤ 1000000000 }
    requires setting { IsSetting (base_at station.now) station.now.clocks.now }
    requires sides { AreSides (base_at station.now) sides.now.feeders.items sides.now.readers.items }
    requires engines { AreEngines O.told trace.now.ticks (base_at station.now) engines.old }
    requires all { length engines.old ≡ station.now.clocks.now.running }
    requires playing { ArePlaying O.told (tale_at station.now trace.now) sides.now turns.now engines.old engines.old
        rests.old taps.old.buffers.items }
    ensures done { OnOk result ((run : Run)
        → IsRecordOf (base_at station.now) station.now.clocks.now.running trace.now run
        → HaveRunTicks O.told (setting_in (base_at station.now) run) trace.now.ticks engines.old engines.new) }
    ensures part { IfErr result (λ end. (run : Run)
        → IsRecordOf (base_at station.now) station.now.clocks.now.running trace.now run
        → HasReplayedTo O.told (setting_in (base_at station.now) run) trace.now.ticks engines.old engines.new end) }
    ensures stopped { IfErr result (λ end. end ≡ Done → ⊥) }
{
    for i in 0..turns.len() {
        let turn = turn_at(turns, i);
        let k = turn.clock as usize;
        if let Err(fault) = replay_turn(
            alloc,
            &mut engines[k],
            &mut rests[k],
            taps,
            sides,
            turn.ticks,
        ) {
            return Err(end_of(turn.clock, fault));
        }
    }
    Ok(())
}

/// Makes all ticks of a replay: from engines that made none, in `turns` in which each clock finds its chunks in the
/// buffers (`taps`). `sides` tells the clocks at the ends of each buffer. `station` and `trace` are for the contract
/// alone. The first fault ends it.
pub fn replay_engines<O: Sink>(
    alloc: Global,
    station: &Station<'_>,
    engines: &mut [ClockEngine<'_, O>],
    taps: &mut ToldTaps,
    sides: &Sides,
    turns: &[TurnMade],
    trace: &Trace,
) -> Result<(), End>
    requires { MayPlayAll O.told station.now sides.now turns.now trace.now engines.old taps.old.buffers.items }
    ensures done { OnOk result ((run : Run)
        → IsRecordOf (base_at station.now) station.now.clocks.now.running trace.now run
        → HaveRunTicks O.told (setting_in (base_at station.now) run) trace.now.ticks engines.old engines.new) }
    ensures part { IfErr result (λ end. (run : Run)
        → IsRecordOf (base_at station.now) station.now.clocks.now.running trace.now run
        → HasReplayedTo O.told (setting_in (base_at station.now) run) trace.now.ticks engines.old engines.new end) }
    ensures stopped { IfErr result (λ end. end ≡ Done → ⊥) }
{
    let Ok(mut rests) = new_rests(alloc, engines.len(), taps.buffers.len()) else {
        return Err(End::Memory);
    };
    replay_turns(
        alloc, station, engines, &mut rests, taps, sides, turns, trace,
    )
}
