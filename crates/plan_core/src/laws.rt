// Laws of plans, for whatever goes over one. Each is a contract of a function that does nothing.
ghost use Rattle.std.specs.Prelude.{◌≡◌, ℕ, ◌+◌, ◌^◌, ◌<◌, ◌≤◌, Bool, List, [], length, take, slice_get, slice_index};
ghost use Rattle.std.specs.Prelude.{Some, Contains};
ghost use Rattle.plan_core.specs.declared.node.Node.{Node};
ghost use Rattle.plan_core.specs.declared.plan.Plan.{Plan};
ghost use Rattle.plan_core.specs.declared.sink.BufferPlan.{BufferPlan};
ghost use Rattle.plan_core.specs.Plans.{AreNodes, IsPathDown, IsBuffer, IsNodeOver, IsNoReader, IsWellFormed};
ghost use Rattle.plan_core.specs.Plans.{crossfade_counts, crossfades_from, crossfades_on, own_crossfades, with_buffer};
ghost use Rattle.plan_core.specs.Plans.{with_node, with_output};

use liq_base::limits::{MAX_CROSSFADES, MAX_FRAME, MAX_NODES, MAX_RATE, MIN_RATE};

/// The children of a node are there, and have smaller numbers.
pub fn children_are_below()
    ensures { (nodes : List Node) (i child : ℕ) (node : Node) → AreNodes nodes
        → slice_get nodes i ≡ Some node → Contains node.children child → child < i }
{}

/// The first n nodes of a plan meet by themselves what nodes have to meet: they are closed under children.
pub fn fronts_are_nodes()
    ensures { (nodes : List Node) (n : ℕ) → AreNodes nodes → AreNodes (take n nodes) }
{}

/// The most crossfades on a path down from a node depend on that node and on those before it alone, so nodes that are
/// added later change no count.
pub fn crossfades_rest_on_nodes_below()
    ensures { (nodes : List Node) (i : ℕ) (node : Node) → slice_get nodes i ≡ Some node
        → slice_index (crossfade_counts nodes) i ≡ crossfades_from (take i nodes) node }
{}

/// The count of a node in `crossfade_counts` is the most crossfades on a path down from it: no path has more, and one
/// has as many. No path has more than 4.
pub fn crossfades_on_paths()
    ensures bound { (nodes : List Node) (i : ℕ) (path : List ℕ) → AreNodes nodes → IsPathDown nodes i path
        → crossfades_on nodes i path ≤ slice_index (crossfade_counts nodes) i }
    ensures reached { (nodes : List Node) (i : ℕ) → AreNodes nodes → i < length nodes
        → (path : List ℕ) × IsPathDown nodes i path
        × (crossfades_on nodes i path ≡ slice_index (crossfade_counts nodes) i) }
    ensures four { (nodes : List Node) (i : ℕ) (path : List ℕ) → AreNodes nodes → IsPathDown nodes i path
        → crossfades_on nodes i path ≤ MAX_CROSSFADES }
{}

/// A well-formed plan stays so with one more node, if it is no reader of a buffer and stands over the others: its
/// children are there, and its number of them, their kinds and the crossfades below it are as they must be.
pub fn a_node_keeps_plans()
    ensures { (plan : Plan) (node : Node) → IsWellFormed plan → length plan.nodes < MAX_NODES
        → IsNodeOver plan.nodes node → IsNoReader node.op → IsWellFormed (with_node plan node) }
{}

/// A well-formed plan stays so with one more output of a node that is there.
pub fn an_output_keeps_plans()
    ensures { (plan : Plan) (name : List ℕ) (node : ℕ) (fallible wide : Bool) → IsWellFormed plan
        → length plan.sinks + 1 < 2 ^ 32 → node < length plan.nodes
        → IsWellFormed (with_output plan name node fallible wide) }
{}

/// A well-formed plan stays so with one more buffer, its feed from a node that is there, and its reader of that node's
/// kind.
pub fn a_buffer_keeps_plans()
    ensures { (plan : Plan) (source : ℕ) (from : Node) (buffer : BufferPlan) → IsWellFormed plan
        → length plan.nodes < MAX_NODES → length plan.sinks + 1 < 2 ^ 32 → IsBuffer buffer
        → slice_get plan.nodes source ≡ Some from → IsWellFormed (with_buffer plan source from.kind buffer) }
{}

/// A plan without nodes is well formed where its rate and its tick are in range.
pub fn an_empty_plan_is_well_formed()
    ensures { (rate frame : ℕ) → MIN_RATE ≤ rate → rate ≤ MAX_RATE → 1 ≤ frame → frame ≤ MAX_FRAME
        → IsWellFormed (record { rate = rate; frame = frame; nodes = []; sinks = []; buffers = [] }) }
{}

/// A node that is no crossfade, over nodes of a plan, has no more crossfades on a path down than a plan may have.
pub fn only_crossfades_add_crossfades()
    ensures { (nodes : List Node) (node : Node) → AreNodes nodes → own_crossfades node.op ≡ 0
        → crossfades_from nodes node ≤ MAX_CROSSFADES }
{}
