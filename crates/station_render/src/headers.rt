// What an output begins with.
ghost use Rattle.std.specs.Prelude.{◌≡◌, ◌<◌, ◌≤◌, ◌*◌, ℕ, Some, length, slice_get, is_none, false};
ghost use Rattle.plan_core.specs.Plans.{IsWellFormed};
ghost use Rattle.stream_meaning.specs.Sinks.{block_length};
ghost use Rattle.wav_io.specs.Header.{header_at};
ghost use Rattle.stations.specs.Streams.{header_bytes_at};
ghost use Rattle.stations.specs.Findings.{node_kind, is_too_long};

use clock_infer::{ClockMap, NodeClock};
use liq_base::Kind;
use plan_core::Plan;
use wav_io::{header, header_wide};

/// What an output is created with.
#[derive(Clone, Copy)]
pub(crate) struct Opening {
    /// The number of its main clock.
    pub clock: u32,

    /// The header of its file.
    pub header: [u8; 44],

    /// How many bytes come after the header.
    pub body: u64,
}

// The number of the main clock in which a node lies; 0 for a node in a sub-clock, where no output's node lies.
pub(crate) fn clock_of(clocks: &ClockMap, node: u32) -> u32
    requires { (m : ℕ) × (slice_get clocks.now.of node ≡ Some (NodeClock.Main m)) }
    ensures { slice_get clocks.now.of node ≡ Some (NodeClock.Main result) }
{
    match clocks.of.as_slice()[node as usize] {
        NodeClock::Main(clock) => clock,
        NodeClock::Sub(_) => 0,
    }
}

/// What the output of a node is created with, for so many ticks: its clock, the header of its WAV file, and how many
/// bytes of samples follow. The samples are of 24 bits if it is `wide`, and otherwise of 16 bits.
pub(crate) fn opening_of(
    plan: &Plan,
    clocks: &ClockMap,
    node: u32,
    wide: bool,
    ticks: u64,
) -> Opening
    requires plan { IsWellFormed plan.now }
    requires within { node < length plan.now.nodes }
    requires few { ticks ≤ 1000000000 }
    requires clock { (m : ℕ) × (slice_get clocks.now.of node ≡ Some (NodeClock.Main m)) }
    requires fits { is_none (header_at wide (node_kind plan.now node) plan.now.rate (ticks * plan.now.frame)) ≡ false }
    ensures clock { slice_get clocks.now.of node ≡ Some (NodeClock.Main result.clock) }
    ensures header { result.header
        ≡ header_bytes_at wide (node_kind plan.now node) plan.now.rate (ticks * plan.now.frame) }
    ensures body { result.body ≡ ticks * (plan.now.frame * block_length wide (node_kind plan.now node)) }
    ensures short { result.body ≤ 1000000000000000 }
{
    let kind = kind_of(plan, node);
    let block = block_len(wide, kind);
    Opening {
        clock: clock_of(clocks, node),
        header: header_for(plan, kind, wide, ticks),
        body: ticks * (u64::from(plan.frame) * block),
    }
}

// The kind of a node of a plan: mono or stereo.
fn kind_of(plan: &Plan, node: u32) -> Kind
    requires { node < length plan.now.nodes }
    ensures { result ≡ node_kind plan.now node }
{
    plan.nodes.as_slice()[node as usize].kind
}

// How many bytes an output of this kind gets at each instant: 3 a channel if it is wide, and otherwise 2.
fn block_len(wide: bool, kind: Kind) -> u64
    ensures { result ≡ block_length wide kind }
{
    let channels = u64::from(kind.channels());
    if wide { 3 * channels } else { 2 * channels }
}

// The WAV header of an output of this kind, for the samples of so many ticks: of 24 bits if it is `wide`, and
// otherwise of 16 bits. The contract bounds the samples, so that there is a header for them.
fn header_for(plan: &Plan, kind: Kind, wide: bool, ticks: u64) -> [u8; 44]
    requires plan { IsWellFormed plan.now }
    requires few { ticks ≤ 1000000000 }
    requires fits { is_none (header_at wide kind plan.now.rate (ticks * plan.now.frame)) ≡ false }
    ensures { result ≡ header_bytes_at wide kind plan.now.rate (ticks * plan.now.frame) }
{
    let samples = ticks * u64::from(plan.frame);
    if wide {
        header_wide(kind, plan.rate, samples).unwrap()
    } else {
        header(kind, plan.rate, samples).unwrap()
    }
}
