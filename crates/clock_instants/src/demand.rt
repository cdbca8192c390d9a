// Which nodes are demanded at an instant.
ghost use Rattle.std.specs.Prelude.{◌≡◌, ◌<◌, ◌||◌, ℕ, List, Option, None, All, nat_eq, length, false, slice_index_or};
ghost use Rattle.std.specs.List.{list_any};
ghost use Rattle.liq_base.specs.declared.memory.Kind.{Kind as TheKind};
ghost use Rattle.stream_meaning.specs.Operators.{work_of};
ghost use Rattle.stream_meaning.specs.Instants.{Setting, child_at, demands_from, offering, part_at, silent, uses_by};
ghost use Rattle.stream_meaning.specs.Instants.{uses_from};
ghost use Rattle.clock_instants.specs.Demands.{PicksOffer, uses_in, with_plan};
ghost use Rattle.clock_nodes.specs.Nodes.{AreNodesOf, lies_at};
ghost use Rattle.clock_nodes.specs.Scenes.{IsScene};

use clock_infer::NodeClock;
use clock_nodes::{ClockNodes, Scene};
use plan_core::Op;
use stream_meaning::Part;

/// Which children a demanded node uses: none, the one that it picked, or all that offer a cell.
#[derive(Clone, Copy, Debug, PartialEq, Eq)]
pub enum Demand {
    Nothing,
    Picked,
    Offering,
}

/// Sets in `demanded` which nodes of a clock are demanded at an instant: those set before, demanded of themselves, and
/// the children that demanded nodes use. `parts` has what each node offers and picks. It goes from the last node to
/// the first, since children stand before their nodes. Nodes of other clocks offer nothing, and are not demanded.
pub fn find_demanded(
    scene: &Scene<'_>,
    nodes: &ClockNodes,
    clock: NodeClock,
    parts: &[Part],
    demanded: &mut [bool],
)
    requires scene { IsScene scene.now }
    requires chains { AreNodesOf scene.now.clocks.now nodes.now }
    requires in_parts { length parts.now ≡ length scene.now.plan.now.nodes }
    requires in_demanded { length demanded.old ≡ length scene.now.plan.now.nodes }
    requires parts { (j : ℕ) → lies_at scene.now.clocks.now clock j ≡ false → part_at parts.now j ≡ silent }
    requires demanded { (j : ℕ) → lies_at scene.now.clocks.now clock j ≡ false
        → slice_index_or demanded.old j false ≡ false }
    ensures others { (j : ℕ) → lies_at scene.now.clocks.now clock j ≡ false
        → slice_index_or demanded.new j false ≡ false }
    ensures demands { (setting : Setting)
        → PicksOffer scene.now.plan.now.nodes parts.now
        → demanded.new ≡ demands_from (λ j. slice_index_or demanded.old j false) 0
        (uses_from (with_plan scene.now.plan.now setting) parts.now 0 scene.now.plan.now.nodes) }
{
    let all = scene.plan.nodes.as_slice();
    let mut i = nodes.end(clock);
    while i > 0 {
        let at = i - 1;
        i = nodes.before(at);
        if demanded[at] {
            let node = &all[at];
            demand_used(
                demand_of(&node.op),
                node.children.as_slice(),
                parts,
                parts[at].pick,
                &mut demanded[..at],
            );
        }
    }
}

// Which children a demanded node of this operator uses: none (a leaf, a crossfade, a reader), all that offer (a mix),
// or the one that it picked.
fn demand_of(op: &Op) -> Demand
    ensures { (rate i : ℕ) (kind : TheKind) (parts : List Part) (children : List ℕ) (pick : Option ℕ)
        → offering parts (child_at children pick) ≡ child_at children pick
        → uses_by parts (work_of rate i kind op.now) children pick ≡ uses_in result parts children pick }
{
    match op {
        Op::Single(_) | Op::Playlist { .. } | Op::Blank { .. } | Op::Square { .. } | Op::Fail =>
            Demand::Nothing,
        Op::Crossfade { .. } | Op::Buffer(_) => Demand::Nothing,
        Op::Add { .. } | Op::Amplify { .. } | Op::Mean | Op::Stereo | Op::Clock(_) =>
            Demand::Offering,
        _ => Demand::Picked,
    }
}

// Demands the child that a node picked, at place `pick` among its children, if it offers a cell: sets it in `demanded`,
// by its number. `parts` has what each node offers. Without a pick no child is demanded.
fn demand_picked(children: &[u32], parts: &[Part], pick: Option<u32>, demanded: &mut [bool])
    requires in_demanded { All (λ child. child < length demanded.old) children.now }
    requires in_parts { All (λ child. child < length parts.now) children.now }
    ensures { (j : ℕ) → slice_index_or demanded.new j false
        ≡ (slice_index_or demanded.old j false
        || list_any (nat_eq j) (uses_in Demand.Picked parts.now children.now pick)) }
{
    let Some(place) = pick else {
        return;
    };
    let Some(child) = children.get(place as usize) else {
        return;
    };
    if parts[*child as usize].slot.is_some() {
        demanded[*child as usize] = true;
    }
}

// Demands all children that offer a cell: sets them in `demanded`, by their numbers. `parts` has what each node offers.
fn demand_offering(children: &[u32], parts: &[Part], demanded: &mut [bool])
    requires in_demanded { All (λ child. child < length demanded.old) children.now }
    requires in_parts { All (λ child. child < length parts.now) children.now }
    ensures { (j : ℕ) → slice_index_or demanded.new j false
        ≡ (slice_index_or demanded.old j false
        || list_any (nat_eq j) (uses_in Demand.Offering parts.now children.now None)) }
{
    for child in children {
        if parts[*child as usize].slot.is_some() {
            demanded[*child as usize] = true;
        }
    }
}

// Demands the children that a demanded node uses, those that `demand` names: sets them in `demanded`, by their numbers.
// `parts` has what each node offers, and `pick` is the place of the child that this node picked, if it did.
fn demand_used(
    demand: Demand,
    children: &[u32],
    parts: &[Part],
    pick: Option<u32>,
    demanded: &mut [bool],
)
    requires in_demanded { All (λ child. child < length demanded.old) children.now }
    requires in_parts { All (λ child. child < length parts.now) children.now }
    ensures { (j : ℕ) → slice_index_or demanded.new j false
        ≡ (slice_index_or demanded.old j false || list_any (nat_eq j) (uses_in demand parts.now children.now pick)) }
{
    match demand {
        Demand::Nothing => {}
        Demand::Picked => demand_picked(children, parts, pick, demanded),
        Demand::Offering => demand_offering(children, parts, demanded),
    }
}
