// What the outputs and feeds of a clock hear in a segment.
ghost use Rattle.std.specs.Prelude.{◌≡◌, ◌<◌, ◌≤◌, suc, All, map};
ghost use Rattle.clock_instants.specs.Stretches.{HasStretchRoom};
ghost use Rattle.clock_outputs.specs.Feeds.{AllHaveFeedRoom, HasFeedRoom, fed};
ghost use Rattle.clock_outputs.specs.Ports.{AllHaveRoomLeft, HasRoomLeft, after_slots};
ghost use Rattle.clock_ticks.specs.Hearings.{segment_of};

use clock_outputs::{FeedPort, Port};
use nested_instants::ClockStates;
use stream_meaning::slot_of;

/// Each output takes the slots of its node in the latest segment: those of an instant, and of `many` more that were
/// made at once, as they go on as it did. `nodes`, the number of nodes, is for the contract alone.
pub fn hear_all(ports: &mut Vec<Port>, clocks: &ClockStates, many: u32, nodes: usize)
    requires stretch_room { HasStretchRoom nodes clocks.now.room }
    requires short { many ≤ 2048 }
    requires within { All (λ port. port.node < nodes) ports.old.items }
    requires room { AllHaveRoomLeft (suc many) ports.old.items }
    ensures { ports.new.items ≡ map (λ port. after_slots port (segment_of clocks.now many port.node)) ports.old.items }
{
    for k in 0..ports.len() {
        hear_one(&mut ports[k], clocks, many, nodes);
    }
}

// An output takes the slots of its node in the latest segment: those of an instant, and of `many` more that were made
// at once, as they go on as it did. `nodes`, the number of nodes, is for the contract alone.
fn hear_one(port: &mut Port, clocks: &ClockStates, many: u32, nodes: usize)
    requires stretch_room { HasStretchRoom nodes clocks.now.room }
    requires short { many ≤ 2048 }
    requires within { port.old.node < nodes }
    requires room { HasRoomLeft (suc many) port.old }
    ensures { port.new ≡ after_slots port.old (segment_of clocks.now many port.old.node) }
{
    let slot = slot_of(&clocks.latest.parts, port.node);
    let count = many as usize;
    port.hear(
        slot,
        clocks.room.left_of(port.node, count),
        clocks.room.right_of(port.node, count),
    );
}

/// Each feed takes the slots of its node in the latest segment: those of an instant, and of `many` more that were made
/// at once, as they go on as it did. `nodes`, the number of nodes, is for the contract alone.
pub fn feed_all(feeds: &mut Vec<FeedPort>, clocks: &ClockStates, many: u32, nodes: usize)
    requires stretch_room { HasStretchRoom nodes clocks.now.room }
    requires short { many ≤ 2048 }
    requires within { All (λ feed. feed.node < nodes) feeds.old.items }
    requires room { AllHaveFeedRoom (suc many) feeds.old.items }
    ensures { feeds.new.items ≡ map (λ feed. fed feed (segment_of clocks.now many feed.node)) feeds.old.items }
{
    for k in 0..feeds.len() {
        feed_one(&mut feeds[k], clocks, many, nodes);
    }
}

// A feed takes the slots of its node in the latest segment: those of an instant, and of `many` more that were made at
// once, as they go on as it did. `nodes`, the number of nodes, is for the contract alone.
fn feed_one(feed: &mut FeedPort, clocks: &ClockStates, many: u32, nodes: usize)
    requires stretch_room { HasStretchRoom nodes clocks.now.room }
    requires short { many ≤ 2048 }
    requires within { feed.old.node < nodes }
    requires room { HasFeedRoom (suc many) feed.old }
    ensures { feed.new ≡ fed feed.old (segment_of clocks.now many feed.old.node) }
{
    let slot = slot_of(&clocks.latest.parts, feed.node);
    let count = many as usize;
    feed.hear(
        slot,
        clocks.room.left_of(feed.node, count),
        clocks.room.right_of(feed.node, count),
    );
}
