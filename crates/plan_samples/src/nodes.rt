// Drafts that grow by a stereo node.
ghost use Rattle.std.specs.Prelude.{◌≡◌, ◌<◌, ◌≤◌, ◌+◌, ◌∷◌, [], Some, All, length, slice_get, IfOk, OnOk};
ghost use Rattle.liq_base.specs.declared.limits.TheConstants.{MAX_CHILDREN, MAX_CROSSFADES};
ghost use Rattle.plan_core.specs.Plans.{crossfades_from, own_crossfades, with_node, HasChildren, HasKind, IsInRange};
ghost use Rattle.plan_core.specs.Plans.{IsNoReader};
ghost use Rattle.plan_samples.specs.Stereos.{blank, stereo_node, IsStereo};

use fixed_text::Decimal;
use liq_base::{Kind, Memory};
use plan_core::{Draft, Items, Node, Op, PlanFault, laws};
use std::alloc::Global;

// Adds a blank (a source of silence without end) to a plan in the making, and answers its number.
pub(crate) fn push_blank(alloc: Global, draft: &mut Draft) -> Result<u32, PlanFault>
    requires { IsStereo draft.old }
    ensures stereo { OnOk result (IsStereo draft.new) }
    ensures number { IfOk result (λ number. number ≡ length draft.old.nodes) }
    ensures size { OnOk result (length draft.new.nodes ≡ length draft.old.nodes + 1) }
    ensures there { IfOk result (λ number. slice_get draft.new.nodes number ≡ Some blank) }
{
    let number = push_plain(draft, Op::Blank { track: 0 }, Vec::new(alloc))?;
    Ok(number)
}

// Adds a node to a plan in the making that amplifies the node `child` by 1.
pub(crate) fn push_amplified(alloc: Global, draft: &mut Draft, child: u32) -> Result<(), PlanFault>
    requires stereo { IsStereo draft.old }
    requires child { child < length draft.old.nodes }
    ensures stereo { OnOk result (IsStereo draft.new) }
    ensures size { OnOk result (length draft.new.nodes ≡ length draft.old.nodes + 1) }
{
    let factor = Decimal {
        millionths: 1_000_000,
    };
    push_plain(draft, Op::Amplify { factor }, one(alloc, child)?)?;
    Ok(())
}

// Adds a crossfade of the node `child`, with an overlap of 22, to a plan in the making, and answers its number. The
// call of a law does nothing: it serves the contract.
pub(crate) fn push_crossfade(alloc: Global, draft: &mut Draft, child: u32) -> Result<u32, PlanFault>
    requires stereo { IsStereo draft.old }
    requires child { slice_get draft.old.nodes child ≡ Some blank }
    ensures stereo { OnOk result (IsStereo draft.new) }
    ensures number { IfOk result (λ number. number ≡ length draft.old.nodes) }
    ensures size { OnOk result (length draft.new.nodes ≡ length draft.old.nodes + 1) }
{
    laws::crossfades_rest_on_nodes_below();
    let number = push_stereo(draft, Op::Crossfade { overlap: 22 }, one(alloc, child)?)?;
    Ok(number)
}

// Adds the sum of these two nodes to a plan in the making.
pub(crate) fn push_sum(
    alloc: Global,
    draft: &mut Draft,
    first: u32,
    second: u32,
) -> Result<(), PlanFault>
    requires stereo { IsStereo draft.old }
    requires first { first < length draft.old.nodes }
    requires second { second < length draft.old.nodes }
    ensures stereo { OnOk result (IsStereo draft.new) }
    ensures size { OnOk result (length draft.new.nodes ≡ length draft.old.nodes + 1) }
{
    push_plain(
        draft,
        Op::Add { normalize: true },
        two(alloc, first, second)?,
    )?;
    Ok(())
}

// Adds a stereo node to a plan in the making, and answers its number.
fn push_stereo(draft: &mut Draft, op: Op, children: Vec<u32>) -> Result<u32, PlanFault>
    requires stereo { IsStereo draft.old }
    requires below { All (λ child. child < length draft.old.nodes) children.items }
    requires few { length children.items ≤ MAX_CHILDREN }
    requires count { HasChildren op (length children.items) }
    requires kind { HasKind op Kind.Stereo Kind.Stereo }
    requires range { IsInRange op }
    requires reader { IsNoReader op }
    requires crossfades { crossfades_from draft.old.nodes (stereo_node op children.items) ≤ MAX_CROSSFADES }
    ensures stereo { OnOk result (IsStereo draft.new) }
    ensures added { OnOk result (draft.new ≡ with_node draft.old (stereo_node op children.items)) }
    ensures number { IfOk result (λ number. number ≡ length draft.old.nodes) }
{
    let number = draft.push_node(Node {
        op,
        kind: Kind::Stereo,
        children: Items::from_vec(children),
    })?;
    Ok(number)
}

// Adds a stereo node that is no crossfade to a plan in the making, and answers its number. The call of a law does
// nothing: it serves the contract.
fn push_plain(draft: &mut Draft, op: Op, children: Vec<u32>) -> Result<u32, PlanFault>
    requires stereo { IsStereo draft.old }
    requires below { All (λ child. child < length draft.old.nodes) children.items }
    requires few { length children.items ≤ MAX_CHILDREN }
    requires count { HasChildren op (length children.items) }
    requires kind { HasKind op Kind.Stereo Kind.Stereo }
    requires range { IsInRange op }
    requires reader { IsNoReader op }
    requires plain { own_crossfades op ≡ 0 }
    ensures stereo { OnOk result (IsStereo draft.new) }
    ensures added { OnOk result (draft.new ≡ with_node draft.old (stereo_node op children.items)) }
    ensures number { IfOk result (λ number. number ≡ length draft.old.nodes) }
{
    laws::only_crossfades_add_crossfades();
    let number = push_stereo(draft, op, children)?;
    Ok(number)
}

// A list of children for a node with one child.
fn one(alloc: Global, child: u32) -> Result<Vec<u32>, Memory>
    ensures { IfOk result (λ children. children.items ≡ child ∷ []) }
{
    Ok(vec![in alloc; child]?)
}

// A list of children for a node with two children.
fn two(alloc: Global, first: u32, second: u32) -> Result<Vec<u32>, Memory>
    ensures { IfOk result (λ children. children.items ≡ first ∷ second ∷ []) }
{
    Ok(vec![in alloc; first, second]?)
}
