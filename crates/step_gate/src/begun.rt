// How many ticks each clock has begun, and which clocks a buffer joins.
ghost use Rattle.std.specs.Prelude.{◌<◌};

use liq_base::limits::MAX_CLOCKS;
use std::array;
use std::sync::Wait;
use std::sync::atomic::{AtomicU64, Ordering};
use std::time::Duration;

/// How many clocks run at most.
const CLOCKS: usize = MAX_CLOCKS as usize;

/// What is known of the clocks. Two are near each other where a buffer joins them.
#[derive(Drop)]
pub(crate) struct Begun {
    /// The ticks that each clock has begun.
    ticks: [AtomicU64; CLOCKS],

    /// The clocks that are near each one: a bit for each.
    near: [AtomicU64; CLOCKS],

    /// The ticks that each clock had begun when another one waited for it in vain.
    given_up: [AtomicU64; CLOCKS],

    /// For how many ticks of the clocks near it each clock waits, and 0 where it does not. On this word it sleeps.
    wanted: [AtomicU64; CLOCKS],
}

impl Begun {
    /// What is known before any clock has begun a tick, or is joined to another.
    pub(crate) fn new() -> Begun {
        Begun {
            ticks: array::from_fn(|_| AtomicU64::new(0)),
            near: array::from_fn(|_| AtomicU64::new(0)),
            given_up: array::from_fn(|_| AtomicU64::new(u64::MAX)),
            wanted: array::from_fn(|_| AtomicU64::new(0)),
        }
    }

    // Notes that a buffer joins two clocks, so that each is near the other and will wait for it.
    pub(crate) fn join(&self, clock: u32, other: u32)
        requires { (clock < 64) × (other < 64) }
    {
        self.near[clock as usize].fetch_or(1 << other, Ordering::SeqCst);
        self.near[other as usize].fetch_or(1 << clock, Ordering::SeqCst);
    }

    // Notes that a clock has begun `ticks` ticks, and wakes those of the clocks near it (joined by a buffer) that
    // waited for this alone.
    pub(crate) fn set(&self, clock: u32, ticks: u64)
        requires { clock < 64 }
    {
        self.ticks[clock as usize].store(ticks, Ordering::SeqCst);
        let near = self.near[clock as usize].load(Ordering::SeqCst);
        for k in 0..CLOCKS {
            if near >> k == 0 {
                return;
            }
            if near >> k & 1 == 1 {
                self.wake(k);
            }
        }
    }

    // Whether a clock need not wait: each clock near it (joined by a buffer) has begun `ticks` ticks, or was given up
    // and has begun none since.
    pub(crate) fn are_near(&self, clock: usize, ticks: u64) -> bool
        requires { clock < 64 }
    {
        let near = self.near[clock].load(Ordering::SeqCst);
        for k in 0..CLOCKS {
            if near >> k == 0 {
                return true;
            }
            if near >> k & 1 == 1 && self.is_awaited(k, ticks) {
                return false;
            }
        }
        true
    }

    // Whether clocks that need this one at `ticks` ticks still wait for it: it has not begun as many, and was not given
    // up since it began its last one.
    fn is_awaited(&self, clock: usize, ticks: u64) -> bool
        requires { clock < 64 }
    {
        let begun = self.ticks[clock].load(Ordering::SeqCst);
        begun < ticks && begun != self.given_up[clock].load(Ordering::SeqCst)
    }

    // Whether each clock that a buffer joins to another has begun `ticks` ticks.
    pub(crate) fn have_all(&self, ticks: u64) -> bool {
        for k in 0..CLOCKS {
            let is_joined = self.near[k].load(Ordering::SeqCst) > 0;
            if is_joined && self.ticks[k].load(Ordering::SeqCst) < ticks {
                return false;
            }
        }
        true
    }

    // Gives up the clocks near this one (joined by a buffer) that have not begun `ticks` ticks, until they begin one;
    // the clocks that waited for them go on.
    pub(crate) fn give_up(&self, clock: usize, ticks: u64)
        requires { clock < 64 }
    {
        let near = self.near[clock].load(Ordering::SeqCst);
        for k in 0..CLOCKS {
            let begun = self.ticks[k].load(Ordering::SeqCst);
            if near >> k & 1 == 1 && begun < ticks {
                self.given_up[k].store(begun, Ordering::SeqCst);
            }
        }
        for k in 0..CLOCKS {
            self.wake(k);
        }
    }

    // Wakes a clock that sleeps, if the clocks for which it waits have come or were given up.
    fn wake(&self, clock: usize)
        requires { clock < 64 }
    {
        let wanted = self.wanted[clock].load(Ordering::SeqCst);
        if wanted > 0 && self.are_near(clock, wanted) {
            self.wanted[clock].store(0, Ordering::SeqCst);
            self.wanted[clock].wake_all();
        }
    }

    // Puts a clock to sleep until the clocks near it (joined by a buffer) have begun `ticks` ticks, at most `sleeps`
    // times for `millis` milliseconds. True says that each has, or was given up; false, that the wait was in vain.
    pub(crate) fn wait<R: Wait>(
        &self,
        rt: &R,
        clock: usize,
        ticks: u64,
        sleeps: u64,
        millis: u64,
    ) -> bool
        requires { clock < 64 }
    {
        let word = (ticks % 0x1_0000_0000) as u32;
        for _ in 0..sleeps {
            self.wanted[clock].store(ticks, Ordering::SeqCst);
            if self.are_near(clock, ticks) {
                break;
            }
            self.wanted[clock].park_timeout(rt, word, Duration::from_millis(millis));
        }
        self.wanted[clock].store(0, Ordering::SeqCst);
        self.are_near(clock, ticks)
    }
}
