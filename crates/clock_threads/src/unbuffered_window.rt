// The engines of a plan without buffers.
ghost use Rattle.std.specs.Prelude.{◌<◌, ℕ, All, length, slice_index_or};
ghost use Rattle.clock_threads.specs.UnbufferedTicks.{CanRunUnbuffered, WasRunUnbuffered};

use crate::task::run_ticks;
use clock_ticks::ClockEngine;
use frame_core::{Chunk, Gave, Taps};
use liq_base::{Gate, Memory, Sink};
use std::alloc::Global;
use std::thread;
use std::thread::Threads;

// Taps that refuse each call, as for want of memory. An engine without readers and feeds makes none.
#[derive(Drop)]
struct UnbufferedTaps {
    // How many buffers there are.
    buffers: u32,
}

impl Taps for UnbufferedTaps {
    ghost use Rattle.std.specs.Prelude.{⊤};

    ghost stands = { λ s calls. ⊤ };

    ghost buffers = { λ s. s.buffers };

    ghost same = { λ s t. ⊤ };

    ghost same_refl = { λ s. tt };

    ghost same_trans = { λ s t u a b. tt };

    // Refuses a take, as for want of memory: an engine without readers makes none.
    fn take(&mut self, _buffer: u32) -> Result<Option<Chunk>, Memory> {
        Err(Memory)
    }

    // Refuses a put, as for want of memory, and hands the chunk back: an engine without feeds makes none.
    fn give(&mut self, _buffer: u32, chunk: Chunk) -> Result<Gave, (Chunk, Memory)> {
        Err((chunk, Memory))
    }
}

// Makes `count` ticks of one engine over a plan without buffers, each after the gate is entered. An engine with a fault
// stops at its tick.
fn run_unbuffered_ticks<O: Sink, G: Gate>(
    alloc: Global,
    engine: &mut ClockEngine<'_, O>,
    gate: &G,
    count: u64,
)
    requires { CanRunUnbuffered O.told count engine.old }
    ensures { WasRunUnbuffered O.told count engine.old engine.new }
{
    run_ticks(
        alloc,
        engine,
        &mut UnbufferedTaps { buffers: 0 },
        gate,
        count,
    );
}

/// Makes one window of a run over a plan without buffers: each engine makes `count` ticks on a thread of its own, at
/// the same time as the others.
pub fn run_unbuffered_window<O: Sink + Send, G: Gate + Sync, R: Threads + Sync>(
    rt: &R,
    alloc: Global,
    engines: &mut [ClockEngine<'_, O>],
    gate: &G,
    count: u64,
)
    requires some { 0 < length engines.old }
    requires can { All (CanRunUnbuffered O.told count) engines.old }
    ensures ran { (i : ℕ) (d : _) → i < length engines.old
        → WasRunUnbuffered O.told count (slice_index_or engines.old i d) (slice_index_or engines.new i d) }
{
    thread::for_each_mut(
        rt,
        engines,
        engines.len(),
        &|_, engine| run_unbuffered_ticks(alloc, engine, gate, count),
    );
}
