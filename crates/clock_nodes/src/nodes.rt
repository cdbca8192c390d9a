// The nodes of each clock.
ghost use Rattle.std.specs.Prelude.{◌≡◌, ◌<◌, ◌≤◌, ℕ, suc, List, length, slice_index_or, IfOk};
ghost use Rattle.liq_base.specs.declared.limits.TheConstants.{MAX_NODES};
ghost use Rattle.clock_infer.specs.declared.clock_map.NodeClock.{NodeClock as Clock};
ghost use Rattle.clock_nodes.specs.Nodes.{AreNodesOf, IsEnd, IsFirst, number_of};

use clock_infer::NodeClock;
use liq_base::Memory;
use std::alloc::Global;

/// The nodes of each clock, in two chains, so that an instant of a clock passes over no node of another one.
#[derive(Drop)]
pub struct ClockNodes {
    /// By a clock's number: its first node, or the number of all nodes.
    pub firsts: Vec<u32>,

    /// By a node: the next one of its clock, or the number of all nodes.
    pub nexts: Vec<u32>,

    /// By a clock's number: one more than its last node, or 0.
    pub ends: Vec<u32>,

    /// By a node: one more than the one before it in its clock, or 0.
    pub befores: Vec<u32>,
}

// The number under which the chains of nodes keep a clock: twice that of a main clock, and one more than twice the
// node of the crossfade for its sub-clock. So both kinds share one list.
fn clock_number(clock: NodeClock) -> usize
    ensures is { result ≡ number_of clock }
    ensures small { result < 8589934592 }
{
    match clock {
        NodeClock::Main(m) => 2 * m as usize,
        NodeClock::Sub(k) => 2 * k as usize + 1,
    }
}

// How many numbers the lists by clock need: one more than the greatest number of these clocks, or 0 if there is none.
fn numbers_of(clocks: &[NodeClock]) -> usize
    ensures { (i : ℕ) → i < length clocks.now → number_of (slice_index_or clocks.now i (NodeClock.Main 0)) < result }
{
    let mut count = 0;
    for clock in clocks {
        count = (clock_number(*clock) + 1).max(count);
    }
    count
}

// Links each node to the next one of its clock, and each clock to its first node; `clocks` has the clock of each node.
// `firsts` goes by a clock's number, and at first says of each that it has no node; `nexts` goes by a node.
// The nodes are gone through from the last one, so that the next one of a clock is known already.
fn link_on(clocks: &[NodeClock], firsts: &mut [u32], nexts: &mut [u32])
    requires few { length clocks.now ≤ MAX_NODES }
    requires in_firsts { (i : ℕ) → i < length clocks.now
        → number_of (slice_index_or clocks.now i (NodeClock.Main 0)) < length firsts.old }
    requires in_nexts { length nexts.old ≡ length clocks.now }
    requires none { (number : ℕ) → slice_index_or firsts.old number (length clocks.now) ≡ length clocks.now }
    ensures first { (clock : Clock)
        → IsFirst clocks.now clock 0 (slice_index_or firsts.new (number_of clock) (length clocks.now)) }
    ensures next { (i : ℕ) → i < length clocks.now
        → IsFirst clocks.now (slice_index_or clocks.now i (NodeClock.Main 0)) (suc i) (slice_index_or nexts.new i 0) }
{
    let mut i = clocks.len();
    while i > 0 {
        i -= 1;
        let number = clock_number(clocks[i]);
        nexts[i] = firsts[number];
        firsts[number] = i as u32;
    }
}

// Links each node to the one before it in its clock, and each clock to its last node, in `befores` and `ends`.
// `clocks` has the clock of each node. Both lists hold one more than the node, since 0 stands for none.
// `ends` goes by a clock's number, and at first says of each that it has no node.
fn link_back(clocks: &[NodeClock], ends: &mut [u32], befores: &mut [u32])
    requires few { length clocks.now ≤ MAX_NODES }
    requires in_ends { (i : ℕ) → i < length clocks.now
        → number_of (slice_index_or clocks.now i (NodeClock.Main 0)) < length ends.old }
    requires in_befores { length befores.old ≡ length clocks.now }
    requires none { (number : ℕ) → slice_index_or ends.old number 0 ≡ 0 }
    ensures end { (clock : Clock)
        → IsEnd clocks.now clock (length clocks.now) (slice_index_or ends.new (number_of clock) 0) }
    ensures before { (i : ℕ) → i < length clocks.now
        → IsEnd clocks.now (slice_index_or clocks.now i (NodeClock.Main 0)) i (slice_index_or befores.new i 0) }
{
    for i in 0..clocks.len() {
        let number = clock_number(clocks[i]);
        befores[i] = ends[number];
        ends[number] = i as u32 + 1;
    }
}

impl ClockNodes {
    /// Chains the nodes of each clock together, forward and back; `clocks` has the clock of each node.
    pub fn new(alloc: Global, clocks: &[NodeClock]) -> Result<ClockNodes, Memory>
        requires { length clocks.now ≤ MAX_NODES }
        ensures { IfOk result (AreNodesOf clocks.now) }
    {
        let numbers = numbers_of(clocks);
        let mut firsts = vec![in alloc; clocks.len() as u32; numbers]?;
        let mut nexts = vec![in alloc; 0; clocks.len()]?;
        link_on(clocks, &mut firsts, &mut nexts);
        let mut ends = vec![in alloc; 0; numbers]?;
        let mut befores = vec![in alloc; 0; clocks.len()]?;
        link_back(clocks, &mut ends, &mut befores);
        Ok(ClockNodes {
            firsts,
            nexts,
            ends,
            befores,
        })
    }

    /// The first node of a clock, or the number of all nodes if it has none.
    pub fn first(&self, clock: NodeClock) -> usize
        ensures { (clocks : List Clock) → AreNodesOf clocks self.now → IsFirst clocks clock 0 result }
    {
        match self.firsts.get(clock_number(clock)) {
            Some(node) => *node as usize,
            None => self.nexts.len(),
        }
    }

    /// The next node in the clock of node i, or the number of all nodes if i is the last.
    pub fn after(&self, i: usize) -> usize
        requires { i < length self.now.nexts.items }
        ensures { (clocks : List Clock) → AreNodesOf clocks self.now
            → IsFirst clocks (slice_index_or clocks i (NodeClock.Main 0)) (suc i) result }
    {
        self.nexts[i] as usize
    }

    /// One more than the last node of a clock, or 0 if it has none.
    pub fn end(&self, clock: NodeClock) -> usize
        ensures { (clocks : List Clock) → AreNodesOf clocks self.now → IsEnd clocks clock (length clocks) result }
    {
        match self.ends.get(clock_number(clock)) {
            Some(end) => *end as usize,
            None => 0,
        }
    }

    /// One more than the node before node i in its clock, or 0 if i is the first.
    pub fn before(&self, i: usize) -> usize
        requires { i < length self.now.befores.items }
        ensures { (clocks : List Clock) → AreNodesOf clocks self.now
            → IsEnd clocks (slice_index_or clocks i (NodeClock.Main 0)) i result }
    {
        self.befores[i] as usize
    }
}
