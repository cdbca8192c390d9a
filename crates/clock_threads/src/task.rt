// What one thread runs in a window.
ghost use Rattle.clock_threads.specs.UnbufferedTicks.{with_taps};
ghost use Rattle.clock_threads.specs.TaskRuns.{CanRun, WasRun};

use clock_ticks::ClockEngine;
use frame_core::Taps;
use liq_base::{Gate, Sink};
use std::alloc::Global;

/// A clock's engine with its taps.
pub struct Task<'a, O, T> {
    pub engine: ClockEngine<'a, O>,
    pub taps: T,
}

// Makes `count` ticks of a clock, each after the gate is entered. A clock with a fault stops at its tick.
pub(crate) fn run_ticks<O: Sink, T: Taps, G: Gate>(
    alloc: Global,
    engine: &mut ClockEngine<'_, O>,
    taps: &mut T,
    gate: &G,
    count: u64,
)
    requires { CanRun O.told T.buffers count (with_taps taps.old engine.old) }
    ensures { WasRun O.told T.stands T.buffers T.same count (with_taps taps.old engine.old)
        (with_taps taps.new engine.new) }
{
    for _ in 0..count {
        gate.enter(engine.clock(), engine.ticks());
        if let Err(_) = engine.tick(alloc, taps) {
            return;
        }
    }
}

impl<'a, O: Sink, T: Taps> Task<'a, O, T> {
    /// Makes `count` ticks of the clock, each after the gate is entered. A clock with a fault stops at its tick.
    pub fn run<G: Gate>(&mut self, alloc: Global, gate: &G, count: u64)
        requires { CanRun O.told T.buffers count self.old }
        ensures { WasRun O.told T.stands T.buffers T.same count self.old self.new }
    {
        run_ticks(alloc, &mut self.engine, &mut self.taps, gate, count);
    }
}
