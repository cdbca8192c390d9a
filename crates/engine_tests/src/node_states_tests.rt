//! States of nodes over a few instants, from the rules of `docs/streams.md`.
ghost use Rattle.std.specs.Prelude.{◌≡◌, ◌≤◌, length, IfOk};
ghost use Rattle.frame_core.specs.Library.{IsLibrary};
ghost use Rattle.plan_core.specs.Plans.{HasChildren};
ghost use Rattle.node_states.specs.States.{Fits};

use fixed_text::WeekSecond;
use frame_core::{Cell, Library};
use liq_base::{Kind, Memory};
use node_states::{Desk, NodeState};
use plan_core::{Items, Node, Op, Plan};
use std::alloc::{AllocError, Global};
use std::process::Abort;
use std::test::Fail;

// An empty plan at 8000 samples a second, over which the state of a node is made.
fn at_8000(alloc: Global) -> Plan
    ensures { result.rate ≡ 8000 }
{
    Plan {
        rate: 8000,
        frame: 320,
        nodes: Items::new(alloc),
        sinks: Items::new(alloc),
        buffers: Items::new(alloc),
    }
}

// Checks that a node without children offers this slot at an instant, and lets the node go on as one that is used.
// `desk` works out what a node offers from its state.
fn check(
    rt: &impl Abort,
    desk: &mut Desk,
    state: &mut NodeState,
    node: &Node,
    library: &Library,
    slot: Option<Cell>,
)
    requires none { length node.now.children ≡ 0 }
    requires number { HasChildren node.now.op 0 }
    requires fits { Fits library.now 0 state.old }
    ensures { Fits library.now 0 state.new }
{
    let part = desk.offer(state, node, &[], library, WeekSecond { second: 0 });
    assert_eq!(rt; part.slot, slot);
    state.next(part, true, library, 0);
}

// The slot of a silent sample, which begins a track where `first` is true.
fn zero(first: bool) -> Option<Cell> {
    Some(Cell {
        left: 0,
        right: 0,
        first,
        title: 0,
    })
}

// Checks that a blank with tracks of two samples begins its next track behind them. `state` is the state of the blank
// at its first sample.
fn check_blank(
    rt: &impl Abort,
    alloc: Global,
    library: &Library,
    node: &Node,
    state: &mut NodeState,
) -> Result<(), Memory>
    requires none { length node.now.children ≡ 0 }
    requires number { HasChildren node.now.op 0 }
    requires fits { Fits library.now 0 state.old }
{
    let mut desk = Desk::new(alloc, 0)?;
    check(rt, &mut desk, state, node, library, zero(true));
    check(rt, &mut desk, state, node, library, zero(false));
    check(rt, &mut desk, state, node, library, zero(true));
    Ok(())
}

// Tests the state of a `blank` whose tracks have two samples.
#[test]
fn a_blank_of_two_samples(rt: HostRuntime) -> Result<(), Fail> {
    let alloc = rt.alloc();
    let library = no_files(alloc)?;
    let node = Node {
        op: Op::Blank { track: 2 },
        kind: Kind::Mono,
        children: Items::new(alloc),
    };
    let plan = at_8000(alloc);
    let mut state = NodeState::new(alloc, &plan, &node, 0)?;
    check_blank(&rt, alloc, &library, &node, &mut state)?;
    Ok(())
}

// Checks that a crossfade wants a sample of its source, and feeds it this one, which begins a track where `first` is
// true. `library` is named for the contract alone.
fn give(rt: &impl Abort, state: &mut NodeState, library: &Library, left: i16, first: bool)
    requires { Fits library.now 1 state.old }
    ensures { Fits library.now 1 state.new }
{
    let _ = library;
    assert!(rt; state.wants());
    let next = sample(left, first);
    state.feed(next);
}

// A library without audio files, for a plan of two nodes.
fn no_files(alloc: Global) -> Result<Library, AllocError>
    ensures library { IfOk result (λ library. IsLibrary library) }
    ensures leaves { IfOk result (λ library. length library.leaves ≡ 2) }
{
    let leaves = Vec::from_array(alloc, [Vec::new(alloc), Vec::new(alloc)])?;
    Ok(Library::new(Vec::new(alloc), Vec::new(alloc), leaves))
}

// The slot of this sample of a mono source, which begins a track where `first` is true.
fn sample(left: i16, first: bool) -> Option<Cell> {
    Some(Cell {
        left,
        right: 0,
        first,
        title: 0,
    })
}

// Checks that a crossfade with an overlap of one sample offers the first of two samples at once, and the second once
// the next track has begun. `state` is the state of the crossfade before it got a sample.
fn check_crossfade(
    rt: &impl Abort,
    alloc: Global,
    library: &Library,
    node: &Node,
    state: &mut NodeState,
) -> Result<(), Memory>
    requires one { length node.now.children ≡ 1 }
    requires number { HasChildren node.now.op 1 }
    requires fits { Fits library.now 1 state.old }
{
    let mut desk = Desk::new(alloc, 1)?;
    give(rt, state, library, 10, true);
    give(rt, state, library, 20, false);
    let at = WeekSecond { second: 0 };
    let part = desk.offer(state, node, &[], library, at);
    assert_eq!(rt; part.slot, sample(10, true));
    state.next(part, true, library, 1);
    give(rt, state, library, 40, true);
    let part = desk.offer(state, node, &[], library, at);
    assert_eq!(rt; part.slot, sample(20, true));
    Ok(())
}

// Tests the state of a `crossfade` whose overlap has one sample.
#[test]
fn a_crossfade_over_one_sample(rt: HostRuntime) -> Result<(), Fail> {
    let alloc = rt.alloc();
    let library = no_files(alloc)?;
    let node = Node {
        op: Op::Crossfade { overlap: 1 },
        kind: Kind::Mono,
        children: Items::from_vec(Vec::from_slice(alloc, &[0])?),
    };
    let plan = at_8000(alloc);
    let mut state = NodeState::new(alloc, &plan, &node, 1)?;
    check_crossfade(&rt, alloc, &library, &node, &mut state)?;
    Ok(())
}
