// The outputs of a new engine.
ghost use Rattle.std.specs.Prelude.{◌≡◌, ◌<◌, ◌≤◌, ◌^◌, All, map, length, IfOk};
ghost use Rattle.plan_core.specs.Plans.{sink_node};
ghost use Rattle.stream_meaning.specs.Instants.{Setting};
ghost use Rattle.stream_meaning.specs.Sinks.{is_wide};
ghost use Rattle.clock_ticks.specs.Beginnings.{IsNewFeed, IsNewPort};
ghost use Rattle.clock_ticks.specs.Engines.{feed_of, feeds_of, output_of, outputs_of};
ghost use Rattle.clock_nodes.specs.Scenes.{setting_over};

use crate::parts::is_main;
use clock_nodes::Scene;
use clock_outputs::{FeedPort, Piece, Port, block_size};
use frame_core::Frame;
use liq_base::Memory;
use plan_core::SinkPlan;
use std::alloc::Global;

/// The outputs that main clock `clock` drives, before the first tick, in sink order. Each has room for the bytes of a
/// tick.
pub fn ports_of(alloc: Global, scene: &Scene<'_>, clock: u32) -> Result<Vec<Port>, Memory>
    requires in_clocks { length scene.now.clocks.now ≡ length scene.now.plan.now.nodes }
    requires frame { scene.now.plan.now.frame ≤ 65536 }
    requires sinks { All (λ sink. sink_node sink < length scene.now.plan.now.nodes) scene.now.plan.now.sinks }
    requires few { length scene.now.plan.now.sinks < 2 ^ 32 }
    ensures outputs { IfOk result (λ ports. (other : Setting)
        → map output_of ports.items ≡ outputs_of (setting_over scene.now other) clock) }
    ensures new { IfOk result (λ ports. (other : Setting)
        → All (IsNewPort (setting_over scene.now other)) ports.items) }
{
    let sinks = scene.plan.sinks.as_slice();
    let mut ports = Vec::with_capacity(alloc, sinks.len())?;
    for i in 0..sinks.len() {
        let SinkPlan::Output { node, wide, .. } = &sinks[i] else {
            continue;
        };
        if !is_main(scene.clocks[*node as usize], clock) {
            continue;
        }
        ports.push(port_of(alloc, scene, i as u32, *node, *wide)?)?;
    }
    Ok(ports)
}

// The output that is sink `sink` of the plan and plays node `node`, before the first tick, with room for the bytes of a
// tick. Its samples have three bytes if it is `wide`.
fn port_of(
    alloc: Global,
    scene: &Scene<'_>,
    sink: u32,
    node: u32,
    wide: bool,
) -> Result<Port, Memory>
    requires within { node < length scene.now.plan.now.nodes }
    requires frame { scene.now.plan.now.frame ≤ 65536 }
    requires width { (other : Setting) → wide ≡ is_wide (setting_over scene.now other) sink }
    ensures output { IfOk result (λ port. output_of port ≡ (sink, node)) }
    ensures new { IfOk result (λ port. (other : Setting) → IsNewPort (setting_over scene.now other) port) }
{
    let kind = scene.plan.nodes.as_slice()[node as usize].kind;
    let room = scene.plan.frame as usize * block_size(wide, kind);
    let piece = Piece::new(alloc, room)?;
    Ok(Port {
        sink,
        node,
        kind,
        wide,
        piece,
        gaps: 0,
        gaps_before: 0,
    })
}

/// The feeds of buffers that main clock `clock` drives, before the first tick, in sink order. Each has room for the
/// cells of a tick.
pub fn feeds_of(alloc: Global, scene: &Scene<'_>, clock: u32) -> Result<Vec<FeedPort>, Memory>
    requires in_clocks { length scene.now.clocks.now ≡ length scene.now.plan.now.nodes }
    requires frame { scene.now.plan.now.frame ≤ 65536 }
    requires sinks { All (λ sink. sink_node sink < length scene.now.plan.now.nodes) scene.now.plan.now.sinks }
    ensures feeds { IfOk result (λ feeds. (other : Setting)
        → map feed_of feeds.items ≡ feeds_of (setting_over scene.now other) clock) }
    ensures new { IfOk result (λ feeds. All (IsNewFeed scene.now.plan.now.frame) feeds.items) }
{
    let sinks = scene.plan.sinks.as_slice();
    let mut feeds = Vec::with_capacity(alloc, sinks.len())?;
    for i in 0..sinks.len() {
        let SinkPlan::Feed { buffer, node } = &sinks[i] else {
            continue;
        };
        if !is_main(scene.clocks[*node as usize], clock) {
            continue;
        }
        feeds.push(feed_port(alloc, scene, *buffer, *node)?)?;
    }
    Ok(feeds)
}

// A feed before the first tick: it is to fill this buffer with what the node plays, and has room for a tick's cells.
fn feed_port(alloc: Global, scene: &Scene<'_>, buffer: u32, node: u32) -> Result<FeedPort, Memory>
    requires frame { scene.now.plan.now.frame ≤ 65536 }
    ensures feed { IfOk result (λ feed. feed_of feed ≡ (buffer, node)) }
    ensures new { IfOk result (IsNewFeed scene.now.plan.now.frame) }
{
    let frame = Frame::new(alloc, scene.plan.frame)?;
    Ok(FeedPort {
        buffer,
        node,
        frame,
    })
}
