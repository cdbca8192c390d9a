// What a gate does with clocks that come, and with those that never do.
use liq_base::Gate;
use std::process::Abort;
use std::sync::Wait;
use std::thread;
use std::thread::Threads;
use step_gate::StepGate;

// Lets a clock enter the gate for so many ticks, and returns how many these were, once the gate has let it through
// each time.
fn pass<G: Gate>(gate: &G, clock: u32, ticks: u64) -> u64 {
    for tick in 0..ticks {
        gate.enter(clock, tick);
    }
    ticks
}

/// Two clocks that a buffer joins, and the clocks that come: one that no buffer joins, one whose neighbour never comes,
/// and ones of which the gate keeps no count.
const JOINED: &[(u32, u32, &[u32])] = &[(0, 1, &[2]), (0, 1, &[1]), (64, 0, &[0, 64, u32::MAX])];

// Lets each of `clocks` in turn make 1000 ticks at a gate that joins the clocks `first` and `second`, and checks that
// it comes to its end.
fn check<R: Abort + Wait>(rt: &R, first: u32, second: u32, clocks: &[u32]) {
    let gate = StepGate::new(rt);
    gate.join(first, second);
    for clock in clocks {
        assert!(rt; pass(&gate, *clock, 1000) == 1000);
    }
}

// A clock gets through the gate though the clock that it is joined to never comes.
#[test]
fn a_clock_that_never_comes_holds_none_for_long(rt: HostRuntime) {
    for row in JOINED {
        check(&rt, row.0, row.1, row.2);
    }
}

// Runs two joined clocks, each on a thread, and tells how many ticks each of them made.
fn both<R: Threads + Wait + Sync>(rt: &R) -> (u64, u64) {
    let gate = StepGate::new(rt);
    gate.join(0, 1);
    thread::join(rt, || pass(&gate, 0, 1000), || pass(&gate, 1, 1000))
}

// Two joined clocks, each on a thread, both get through the gate to their ends.
#[test]
fn two_clocks_come_to_their_ends(rt: HostRuntime) {
    assert!(rt; both(&rt) == (1000, 1000));
}

// Runs four clocks joined in a chain: the first thread runs 0 and then 1, the other one 3 and then 2. So 0 and 3 wait
// in vain, and 1 and 2 do not. It gives the number of ticks, 100, once all came through.
fn behind_others<R: Threads + Wait + Sync>(rt: &R) -> u64 {
    let gate = StepGate::new(rt);
    gate.join(0, 1);
    gate.join(1, 2);
    gate.join(2, 3);
    for tick in 0..100 {
        thread::join(
            rt,
            || pass_both(&gate, 0, 1, tick),
            || pass_both(&gate, 3, 2, tick),
        );
    }
    100
}

// Lets first one clock and then another come to the gate at this tick, as one thread that runs both. It gives the
// tick.
fn pass_both<G: Gate>(gate: &G, first: u32, second: u32, tick: u64) -> u64 {
    gate.enter(first, tick);
    gate.enter(second, tick);
    tick
}

// Clocks that share threads get through the gate though others wait there in vain: a second a tick would be more than
// a test may take.
#[test]
fn clocks_behind_others_hold_none_for_long(rt: HostRuntime) {
    assert!(rt; behind_others(&rt) == 100);
}
