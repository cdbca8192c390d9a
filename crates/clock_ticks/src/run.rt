// The segments of a tick.
ghost use Rattle.std.specs.Prelude.{◌≡◌, ◌<◌, ◌≤◌, ◌+◌, ◌⊎◌, true, All, map, OnOk, OnErr};
ghost use Rattle.clock_instants.specs.Takes.{HasReader, ReadersAreIn};
ghost use Rattle.clock_ticks.specs.Standing.{CanMake, IsClockState};
ghost use Rattle.clock_ticks.specs.Hearings.{CanHear, Heard, HeardSome, feed_key, hearing_by};

use crate::clock_state::{ClockState, make_segment};
use crate::cues::{Cues, begin_cues, mark_all};
use crate::heard::{feed_all, hear_all};
use clock_infer::NodeClock;
use clock_nodes::Scene;
use clock_outputs::{FeedPort, Port, begin_feeds, begin_tick};
use frame_core::Taps;
use liq_base::Memory;
use op_mix::MAX_STRETCH;

/// Makes the instants of a tick, from instant `start` on, segment by segment: an instant, and those that go on as it
/// did. Outputs (`ports`) and `feeds` take what their nodes offer, and `cues` the tracks that begin. `own` marks the
/// nodes that their own clock demands. If memory is refused, some takes were made, from the first on.
pub fn run_tick<T: Taps>(
    scene: &Scene<'_>,
    clock: NodeClock,
    own: &[bool],
    state: &mut ClockState,
    ports: &mut Vec<Port>,
    feeds: &mut Vec<FeedPort>,
    cues: &mut Cues,
    start: u64,
    taps: &mut T,
) -> Result<(), Memory>
    requires makes { CanMake scene.now clock own.now state.old }
    requires hearing { CanHear scene.now ports.old.items feeds.old.items cues.old start }
    requires readers { ReadersAreIn scene.now.plan.now (T.buffers taps.old) }
    ensures state { IsClockState scene.now state.new }
    ensures frames { All (λ feed. scene.now.plan.now.frame ≤ feed.frame.room) feeds.new.items }
    ensures keys { map feed_key feeds.new.items ≡ map feed_key feeds.old.items }
    ensures keeping { cues.new.keeping ≡ cues.old.keeping }
    ensures buffers { T.buffers taps.new ≡ T.buffers taps.old }
    ensures same { T.same taps.old taps.new }
    ensures heard { OnOk result (Heard T.stands scene.now clock own.now scene.now.plan.now.frame
        (hearing_by state.old ports.old.items feeds.old.items cues.old start taps.old)
        (hearing_by state.new ports.new.items feeds.new.items cues.new start taps.new)) }
    ensures stopped { OnErr result (HeardSome T.stands scene.now clock own.now scene.now.plan.now.frame
        (hearing_by state.old ports.old.items feeds.old.items cues.old start taps.old)
        (hearing_by state.new ports.new.items feeds.new.items cues.new start taps.new)) }
    ensures needs { OnErr result (HasReader scene.now.plan.now scene.now.clocks.now clock ⊎ (cues.old.keeping ≡ true)) }
{
    let frame = scene.plan.frame;
    let nodes = scene.plan.nodes.len();
    begin_tick(ports);
    begin_feeds(feeds);
    begin_cues(cues);
    let mut instant = 0;
    while instant < frame {
        let most = (frame - instant - 1).min(MAX_STRETCH);
        let many = make_segment(scene, clock, own, state, most, taps)?;
        hear_all(ports, &state.clocks, many, nodes);
        feed_all(feeds, &state.clocks, many, nodes);
        mark_all(cues, ports, start + instant as u64, &state.clocks)?;
        instant += 1 + many;
    }
    Ok(())
}
