// The children that are heard in a run, and their samples.
ghost use Rattle.std.specs.Prelude.{◌≡◌, ◌≤◌, length, pos, replicate};
ghost use Rattle.op_mix.specs.Stretches.{first_that_gives, lane_at, offers_in, samples_of};

use crate::room::MAX_STRETCH;
use stream_meaning::Part;

// What a node that has no lane gives over a run.
static SILENCE: [i16; MAX_STRETCH as usize] = [0; MAX_STRETCH as usize];

/// Whether a node offers a cell (a pair of samples), by `parts`, what each node did at an instant.
pub fn offers(parts: &[Part], node: u32) -> bool
    ensures { result ≡ offers_in parts.now node }
{
    match parts.get(node as usize) {
        Some(part) => part.slot.is_some(),
        None => false,
    }
}

/// The first of these children that offers a cell, by `parts`, what each node did at an instant; `None` where none
/// does.
pub fn first_that_offers(children: &[u32], parts: &[Part]) -> Option<u32>
    ensures { result ≡ first_that_gives (offers_in parts.now) children.now }
{
    for child in children {
        if offers(parts, *child) {
            return Some(*child);
        }
    }
    None
}

/// The samples of a node over the first `count` instants of a run, on one side, from the buffers of all nodes: silence
/// where its own is shorter.
pub fn samples_of(lanes: &[Vec<i16>], node: u32, count: usize) -> &[i16]
    requires short { count ≤ 2048 }
    ensures is { result.now ≡ samples_of lanes.now node count }
    ensures long { length result.now ≡ count }
{
    let lane = lane_of(lanes, node);
    if lane.len() < count {
        return silence(count);
    }
    let (own, _) = lane.split_at(count);
    own
}

// The buffer with the samples of a node over a run, on one side; empty where the node has none.
fn lane_of(lanes: &[Vec<i16>], node: u32) -> &[i16]
    ensures { result.now ≡ lane_at lanes.now node }
{
    match lanes.get(node as usize) {
        Some(lane) => lane.as_slice(),
        None => &[],
    }
}

// A slice of `count` zero samples, for a node that has no samples over a run.
fn silence(count: usize) -> &'static [i16]
    requires short { count ≤ 2048 }
    ensures { result.now ≡ replicate count (pos 0) }
{
    let (front, _) = SILENCE.split_at(count);
    front
}
