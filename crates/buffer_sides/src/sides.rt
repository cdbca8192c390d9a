// The nodes that feed and read the buffers of a plan.
ghost use Rattle.std.specs.Prelude.{◌≡◌, ◌<◌, ◌∷◌, ℕ, suc, List, length, IfOk};
ghost use Rattle.plan_core.specs.declared.node.Node.{Node as PlanNode};
ghost use Rattle.plan_core.specs.declared.node.Op.TheVariants.{Buffer};
ghost use Rattle.plan_core.specs.declared.plan.Plan.{Plan as ThePlan};
ghost use Rattle.plan_core.specs.declared.sink.SinkPlan.{SinkPlan as Sink};
ghost use Rattle.plan_core.specs.Plans.{IsWellFormed};
ghost use Rattle.buffer_sides.specs.Sides.{AreFeeders, AreReaders, FeedsBelow};

use liq_base::Memory;
use plan_core::{Node, Plan, SinkPlan};
use std::alloc::Global;

/// For each buffer of a plan, by its number, the node whose cells are fed into it. It goes from the last sink to the
/// first, so that of two feeds of a buffer the first stays. The error is want of memory.
pub fn feeders(alloc: Global, plan: &Plan) -> Result<Vec<u32>, Memory>
    requires { IsWellFormed plan.now }
    ensures size { IfOk result (λ found. length found.items ≡ length plan.now.buffers) }
    ensures fed { IfOk result (λ found. AreFeeders plan.now.sinks found.items) }
{
    let sinks = plan.sinks.as_slice();
    let mut found = vec![in alloc; 0; plan.buffers.len()]?;
    let mut i = sinks.len();
    while i > 0 {
        i -= 1;
        put_feeder(&sinks[i], &mut found);
    }
    Ok(found)
}

// Writes the node of a sink that is a feed into `found`, at the number of its buffer, once the later sinks are
// written; any other sink changes nothing.
fn put_feeder(sink: &SinkPlan, found: &mut [u32])
    requires { FeedsBelow (length found.old) sink.now }
    ensures size { length found.new ≡ length found.old }
    ensures fed { (sinks : List Sink) → AreFeeders sinks found.old → AreFeeders (sink.now ∷ sinks) found.new }
{
    if let SinkPlan::Feed { buffer, node } = sink {
        found[*buffer as usize] = *node;
    }
}

/// For each buffer of a plan, by its number, the node that reads it. It goes from the last node to the first, so that
/// of two readers of a buffer the first stays. The error is want of memory.
pub fn readers(alloc: Global, plan: &Plan) -> Result<Vec<u32>, Memory>
    requires { IsWellFormed plan.now }
    ensures size { IfOk result (λ found. length found.items ≡ length plan.now.buffers) }
    ensures read { IfOk result (λ found. AreReaders plan.now 0 plan.now.nodes found.items) }
{
    let nodes = plan.nodes.as_slice();
    let mut found = vec![in alloc; 0; plan.buffers.len()]?;
    let mut i = nodes.len();
    while i > 0 {
        i -= 1;
        put_reader(i as u32, &nodes[i], &mut found);
    }
    Ok(found)
}

// Writes the number of a node that is a reader into `found`, at the number of its buffer, once the later nodes are
// written; any other node changes nothing.
fn put_reader(number: u32, node: &Node, found: &mut [u32])
    requires { (buffer : ℕ) → node.now.op ≡ Buffer buffer → buffer < length found.old }
    ensures size { length found.new ≡ length found.old }
    ensures read { (plan : ThePlan) (nodes : List PlanNode) → AreReaders plan (suc number) nodes found.old
        → AreReaders plan number (node.now ∷ nodes) found.new }
{
    if let Some(buffer) = node.op.buffer_read() {
        found[buffer as usize] = number;
    }
}
