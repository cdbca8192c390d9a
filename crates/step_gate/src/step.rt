// Clocks in threads of their own each go at their own pace. Here those that a buffer joins wait for each other, but not
// for long.
ghost use Rattle.std.specs.Prelude.{◌<◌, ◌≤◌};

use crate::begun::Begun;
use liq_base::Gate;
use liq_base::limits::MAX_CLOCKS;
use std::sync::Wait;
use std::sync::atomic::{AtomicU64, Ordering};

/// The longest sleep between two looks at the other clocks, in milliseconds.
const SLEEP: u64 = 10;

/// How often a clock sleeps in a wait, where the last wait was not in vain.
const SLEEPS: u64 = 100;

/// The least number of ticks that have to go well before a wait is long again.
const CALM: u64 = 1024;

// How often a clock sleeps in a wait for others, after `vain` waits in vain: half as often for each of them. After
// seven it sleeps once at the 8th, the 16th and so on, and else not at all.
fn sleeps_after(vain: u64) -> u64
    ensures { result ≤ 100 }
{
    if vain < 7 {
        SLEEPS >> vain
    } else if vain.is_power_of_two() {
        1
    } else {
        0
    }
}

/// A gate at which no clock begins a tick before each one that a buffer joins to it has begun its tick of this number.
///
/// A clock that waited in vain gives those up for which it waited, until they begin a tick, and the next wait is half
/// as long. After seven waits in vain there is a last sleep at the 8th, the 16th and so on. Waits are long again once
/// all clocks have begun twice as many ticks as when the last wait was in vain, and 2048 at least. So a clock that
/// stopped holds the others for a second, and clocks that run one behind another hold each other for two, once or twice
/// in all. A clock that no buffer joins to another waits for nobody, and nor does one whose number is [`MAX_CLOCKS`] or
/// more.
#[derive(Drop)]
pub struct StepGate<'a, R> {
    rt: &'a R,
    begun: Begun,

    /// How many waits were in vain since waits were long.
    vain: AtomicU64,
    /// For how many ticks of other clocks a wait was in vain; of several the most.
    vain_ticks: AtomicU64,
}

impl<'a, R> StepGate<'a, R> {
    /// A gate of clocks of which none has begun a tick, and none is joined to another.
    pub fn new(rt: &'a R) -> StepGate<'a, R> {
        StepGate {
            rt,
            begun: Begun::new(),
            vain: AtomicU64::new(0),
            vain_ticks: AtomicU64::new(0),
        }
    }

    // Notes that a wait of a clock for others to begin `ticks` ticks was in vain, where `vain` waits were in vain
    // before.
    fn tell_vain(&self, vain: u64, ticks: u64) {
        self.vain_ticks.fetch_max(ticks, Ordering::SeqCst);
        self.count_from(vain, vain.saturating_add(1));
    }

    // Whether all clocks have gone well for long, so that waits may be long again, where a wait for `ticks` ticks was
    // not in vain. That one says little: where some clocks run behind others, the last of each window find that all
    // have come.
    fn is_calm(&self, ticks: u64) -> bool {
        ticks / 2 >= self.vain_ticks.load(Ordering::SeqCst).max(CALM) && self.begun.have_all(ticks)
    }

    // Sets the count of waits in vain to `next`, unless another thread changed it since it was read as `vain`.
    fn count_from(&self, vain: u64, next: u64) {
        let _ = self
            .vain
            .compare_exchange(vain, next, Ordering::SeqCst, Ordering::SeqCst);
    }
}

impl<R: Wait> StepGate<'_, R> {
    // Waits for the clocks that a buffer joins to this one to begin `ticks` ticks. Where it was in vain, they are
    // given up, and later waits are shorter.
    fn wait(&self, clock: usize, ticks: u64)
        requires { clock < 64 }
    {
        let vain = self.vain.load(Ordering::SeqCst);
        let sleeps = sleeps_after(vain);
        if !self.begun.wait(self.rt, clock, ticks, sleeps, SLEEP) {
            self.begun.give_up(clock, ticks);
            self.tell_vain(vain, ticks);
        } else if vain > 0 && self.is_calm(ticks) {
            self.count_from(vain, 0);
        }
    }
}

impl<R: Wait> Gate for StepGate<'_, R> {
    // Notes that a buffer joins clock `from` to clock `to`, so that each will wait for the other.
    fn join(&self, from: u32, to: u32) {
        if from < MAX_CLOCKS && to < MAX_CLOCKS {
            self.begun.join(from, to);
        }
    }

    // Called as a clock begins its tick of this number: waits, for a while, until the clocks that a buffer joins to it
    // have begun theirs.
    fn enter(&self, clock: u32, tick: u64) {
        if clock >= MAX_CLOCKS {
            return;
        }
        let ticks = tick.saturating_add(1);
        self.begun.set(clock, ticks);
        if !self.begun.are_near(clock as usize, ticks) {
            self.wait(clock as usize, ticks);
        }
    }
}
