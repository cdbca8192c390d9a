// A call by threads. Expected bytes and lines are worked out by hand from the rules in `docs/`.
use crate::calls::{call_told, held, shelf, sink};
use liq_base::{Gate, MemShelf};
use std::alloc::Global;
use std::process::Abort;
use std::sync::Wait;
use std::sync::atomic::{AtomicBool, AtomicU64, Ordering};
use std::test::Fail;
use std::thread;
use std::thread::Threads;

/// The samples 1 2 3 on both sides, as bytes.
const CYCLE: &[u8] = b"\x01\0\x01\0\x02\0\x02\0\x03\0\x03\0";

/// A source in the clock `main`, and a buffer of one chunk that carries it to the clock `b`. A tick has 8 samples.
const JOINED: &str =
    "set(\"frame.audio.samplerate\", 8000)\nset(\"frame.duration\", 0.001)\ns = single(\"B\")\n\
    output.file(%wav, \"A\", s)\noutput.file(%wav, \"C\", clock(id=\"b\", mksafe(buffer(buffer=0., max=0., s))))\n";

/// How often a clock gives its turn to others, at most, while it waits.
const TURNS: u64 = 200_000_000;

/// Lets two clocks go on in turn: clock 0 begins a tick once clock 1 has come to the same one; and clock 1 begins a
/// tick below 3 once clock 0 has come to the next one.
#[derive(Drop)]
struct Turns {
    /// How many ticks each clock has come to.
    first: AtomicU64,
    second: AtomicU64,

    /// A clock waited too long.
    late: AtomicBool,
}

impl Turns {
    // A gate for two clocks of which neither has come to a tick yet.
    fn new() -> Turns {
        Turns {
            first: AtomicU64::new(0),
            second: AtomicU64::new(0),
            late: AtomicBool::new(false),
        }
    }

    // Waits until `clock`, the count of one clock, has come to so many ticks, and lets other threads run meanwhile.
    // After too many tries it notes that a clock is late, and from then on nobody waits.
    fn wait_for(&self, clock: &AtomicU64, ticks: u64) {
        for _ in 0..TURNS {
            if clock.load(Ordering::SeqCst) >= ticks || self.late.load(Ordering::SeqCst) {
                return;
            }
            thread::yield_now();
        }
        self.late.store(true, Ordering::SeqCst);
    }
}

impl Gate for Turns {
    // Lets a clock begin a tick once the other one has come as far as it must: clock 0 waits for the same tick of clock
    // 1, and clock 1, in its first three ticks, for the next one of clock 0.
    fn enter(&self, clock: u32, tick: u64) {
        let come = tick.saturating_add(1);
        if clock == 0 {
            self.first.store(come, Ordering::SeqCst);
            self.wait_for(&self.second, come);
        } else {
            self.second.store(come, Ordering::SeqCst);
            if tick < 3 {
                self.wait_for(&self.first, come.saturating_add(1));
            }
        }
    }
}

// Checks that an output has 32 samples behind its header of 44 bytes, and that they begin with the samples 1 2 3 over
// and over, `cycles` times; the last time may be cut off.
fn check_output(rt: &impl Abort, output: &[u8], cycles: usize) {
    assert!(rt; output.len() == 172);
    for cycle in output[44..].chunks(12).take(cycles) {
        assert!(rt; CYCLE.starts_with(cycle));
    }
}

// Checks that the report tells of no gaps, and that the buffer accepted all four chunks.
fn check_report(rt: &impl Abort, told: &[u8]) {
    assert!(rt;
        told.starts_with(
            b"output A samples 32 gaps 0\noutput C samples 32 gaps 0\nbuffer 0 accepted 4 full 0 "
        )
    );
}

// Renders four ticks of both clocks, which go on in turn at this gate, and checks that neither waited too long.
fn check_turns<R: Abort + Threads + Wait + Sync>(
    rt: &R,
    alloc: Global,
    shelf: &mut MemShelf,
    gate: &Turns,
) -> Result<(), Fail> {
    let mut out = sink(alloc)?;
    let ending = call_told(rt, alloc, "render f 4 --window=16", shelf, &mut out, gate)?;
    assert!(rt; ending == (0, 0) && !gate.late.load(Ordering::SeqCst));
    check_report(rt, out.held());
    Ok(())
}

// Renders two clocks on two threads, tick by tick in turn, and checks the bytes of both outputs.
#[test]
fn two_clocks_at_once(rt: HostRuntime) -> Result<(), Fail> {
    let mut shelf = shelf(rt.alloc(), JOINED)?;
    check_turns(&rt, rt.alloc(), &mut shelf, &Turns::new())?;
    check_output(&rt, held(&shelf, "A"), 11);
    check_output(&rt, held(&shelf, "C"), 8);
    Ok(())
}
