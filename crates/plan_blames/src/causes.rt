// Where a silence is to be mended.
ghost use Rattle.std.specs.Prelude.{◌≡◌, ◌<◌, IfSome, length};
ghost use Rattle.plan_core.specs.Plans.{AreNodes};
ghost use Rattle.plan_blames.specs.Needs.{IsCause, IsOnlyNeeded};

use crate::needs::only_needed;
use plan_core::Node;

/// The source that is to be mended so that source `from` never falls silent. It goes down from that one, as long as one
/// source alone is needed. `docs/faults.md`, E25, shows its place in the script.
pub fn cause(nodes: &[Node], from: u32) -> u32
    requires nodes { AreNodes nodes.now }
    requires there { from < length nodes.now }
    ensures { IsCause nodes.now from result }
{
    let mut at = from;
    while let Some(child) = needed_at(nodes, at) {
        at = child;
    }
    at
}

// The one source that source n needs; `None` where it needs none, or several.
fn needed_at(nodes: &[Node], n: u32) -> Option<u32>
    requires nodes { AreNodes nodes.now }
    requires there { n < length nodes.now }
    ensures needed { IsOnlyNeeded nodes.now n result }
    ensures below { IfSome result (λ child. child < n) }
{
    let node = &nodes[n as usize];
    only_needed(&node.op, node.children.as_slice())
}
