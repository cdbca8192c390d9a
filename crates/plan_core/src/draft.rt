// A plan that is being made.
ghost use Rattle.std.specs.Prelude.{◌≡◌, ◌<◌, ◌≤◌, ◌↔◌, ◌+◌, ◌^◌, [], length, slice_get, slice_index, All, Some, IfOk};
ghost use Rattle.std.specs.Prelude.{OnOk, OnErr, IsErrOf};
ghost use Rattle.plan_core.specs.declared.node.Node.{Node};
ghost use Rattle.plan_core.specs.Plans.{crossfades_from, crossfade_counts, own_crossfades, with_node, with_output};
ghost use Rattle.plan_core.specs.Plans.{with_buffer, IsBuffer, IsNodeOver, IsNoReader, IsWellFormed};

use crate::{BufferPlan, Items, Node, Op, Plan, PlanFault, SinkPlan};
use liq_base::limits::{MAX_CHILDREN, MAX_CROSSFADES, MAX_NODES};
use liq_base::{Kind, Memory, Text};
use std::alloc::Global;
use std::marker::Model;

/// A plan that is being made. It keeps the crossfades on the paths down from each of its nodes, so that what a node
/// over them would have is found without a look at the plan. Contracts see the plan.
#[derive(Debug, Drop)]
pub struct Draft {
    plan: Plan,

    /// For each node, the most crossfades on a path down from it.
    crossfades: Items<u8>,
}

impl Model for Draft {
    ghost use Rattle.std.specs.Prelude.{◌≡◌, ◌≤◌, All};
    ghost use Rattle.liq_base.specs.declared.limits.TheConstants.{MAX_CROSSFADES};
    ghost use Rattle.plan_core.specs.declared.plan.Plan.{Plan};
    ghost use Rattle.plan_core.specs.Plans.{crossfade_counts};
    ghost use Rattle.std.specs.Coded.{codes};
    ghost use Rattle.time_pred.specs.Stored.{predicate_code};

    ghost Value = { Plan };

    ghost coded = { Prim.hlevel (codes, predicate_code) };

    ghost view = { λ d. d.plan };

    ghost invariant = { λ d. (d.crossfades ≡ crossfade_counts d.plan.nodes)
        × All (λ count. count ≤ MAX_CROSSFADES) d.crossfades };
}

impl Draft {
    /// A plan without nodes, sinks and buffers, whose making begins. `rate` is in samples a second, `frame` in
    /// samples. It takes no memory.
    pub fn new(alloc: Global, rate: u32, frame: u32) -> Draft
        ensures empty { result ≡ record { rate = rate; frame = frame; nodes = []; sinks = []; buffers = [] } }
    {
        let plan = Plan {
            rate,
            frame,
            nodes: Items::new(alloc),
            sinks: Items::new(alloc),
            buffers: Items::new(alloc),
        };
        Draft {
            plan,
            crossfades: Items::new(alloc),
        }
    }

    /// The plan as it stands, to be read.
    pub fn plan(&self) -> &Plan
        ensures same { result.now ≡ self.now }
    {
        &self.plan
    }

    /// Ends the making of a plan, and returns it.
    pub fn into_plan(self) -> Plan
        ensures same { result ≡ self }
    {
        self.plan
    }

    /// The most crossfades on a path down from node `number`, itself among them; 0 if there is no such node. It takes
    /// the same time in every plan.
    pub fn crossfades_of(&self, number: u32) -> u32
        ensures count { result ≡ slice_index (crossfade_counts self.now.nodes) number }
        ensures few { result ≤ MAX_CROSSFADES }
    {
        match self.crossfades.as_slice().get(number as usize) {
            Some(count) => u32::from(*count),
            None => 0,
        }
    }

    /// The most crossfades on a path down from `node` if it were added to the plan, itself among them. It takes a step
    /// for each child.
    pub fn crossfades_from(&self, node: &Node) -> u32
        ensures count { result ≡ crossfades_from self.now.nodes node.now }
    {
        let children = node.children.as_slice();
        let mut most = 0;
        'children: for child in children {
            most = most.max(self.crossfades_of(*child));
        }
        own_crossfades(&node.op) + most
    }

    /// Sets the rate of the plan, in samples a second.
    pub fn set_rate(&mut self, rate: u32)
        ensures set { self.new ≡ record self.old { rate = rate } }
    {
        self.plan.rate = rate;
    }

    /// Sets the length of a tick of the plan, in samples.
    pub fn set_frame(&mut self, frame: u32)
        ensures set { self.new ≡ record self.old { frame = frame } }
    {
        self.plan.frame = frame;
    }

    /// Adds a node over nodes that are there, and returns its number.
    /// `TooManySources` comes exactly where `MAX_NODES` nodes are there. After any `Err` the plan is unchanged.
    pub fn push_node(&mut self, node: Node) -> Result<u32, PlanFault>
        requires children { All (λ child. child < length self.old.nodes) node.children }
        requires few { length node.children ≤ MAX_CHILDREN }
        requires crossfades { crossfades_from self.old.nodes node ≤ MAX_CROSSFADES }
        ensures number { IfOk result (λ number. number ≡ length self.old.nodes) }
        ensures added { OnOk result (self.new ≡ with_node self.old node) }
        ensures room { OnOk result (length self.old.nodes < MAX_NODES) }
        ensures well_formed { OnOk result (IsWellFormed self.old → IsNodeOver self.old.nodes node → IsNoReader node.op
            → IsWellFormed self.new) }
        ensures full { IsErrOf result PlanFault.TooManySources ↔ (MAX_NODES ≤ length self.old.nodes) }
        ensures unchanged { OnErr result (self.new ≡ self.old) }
    {
        let nodes = self.plan.nodes.len();
        if nodes >= MAX_NODES as usize {
            return Err(PlanFault::TooManySources);
        }
        let count = self.crossfades_from(&node);
        self.crossfades.push(count as u8)?;
        match self.plan.push_node(node) {
            Ok(number) => Ok(number),
            Err(fault) => {
                self.crossfades.truncate(nodes);
                Err(fault)
            }
        }
    }

    /// Adds an output of a node to the file of this name, of 24 bits a sample if it is `wide`, else of 16.
    /// `fallible` says that the script allows it to have gaps.
    /// The 2^32nd sink is refused as want of memory is; after that the plan is as it was.
    pub fn push_output(
        &mut self,
        name: Text,
        node: u32,
        fallible: bool,
        wide: bool,
    ) -> Result<(), Memory>
        ensures added { OnOk result (self.new ≡ with_output self.old name node fallible wide) }
        ensures room { OnOk result (length self.old.sinks + 1 < 2 ^ 32) }
        ensures well_formed { OnOk result (IsWellFormed self.old → node < length self.old.nodes
            → IsWellFormed self.new) }
        ensures unchanged { OnErr result (self.new ≡ self.old) }
    {
        if self.plan.sinks.len() >= u32::MAX as usize {
            return Err(Memory);
        }
        let output = SinkPlan::Output {
            name,
            node,
            fallible,
            wide,
        };
        self.plan.sinks.push(output)?;
        Ok(())
    }

    /// Adds a buffer, its feed from the node `source`, and its reader, a node of this kind.
    /// It answers the reader's number among the nodes.
    /// `TooManySources` comes exactly where `MAX_NODES` nodes are there.
    /// The 2^32nd sink or buffer is refused as want of memory is. After any `Err` the plan is as it was.
    pub fn push_buffer(
        &mut self,
        alloc: Global,
        source: u32,
        kind: Kind,
        buffer: BufferPlan,
    ) -> Result<u32, PlanFault>
        ensures number { IfOk result (λ number. number ≡ length self.old.nodes) }
        ensures added { OnOk result (self.new ≡ with_buffer self.old source kind buffer) }
        ensures room { OnOk result (length self.old.nodes < MAX_NODES) }
        ensures well_formed { OnOk result ((from : Node) → IsWellFormed self.old → IsBuffer buffer
            → slice_get self.old.nodes source ≡ Some from → kind ≡ from.kind → IsWellFormed self.new) }
        ensures full { IsErrOf result PlanFault.TooManySources ↔ (MAX_NODES ≤ length self.old.nodes) }
        ensures unchanged { OnErr result (self.new ≡ self.old) }
    {
        if self.plan.nodes.len() >= MAX_NODES as usize {
            return Err(PlanFault::TooManySources);
        }
        let sinks = self.plan.sinks.len();
        let buffers = self.plan.buffers.len();
        let number = self.plan.push_fed(source, buffer)?;
        let reader = Node {
            op: Op::Buffer(number),
            kind,
            children: Items::new(alloc),
        };
        match self.push_node(reader) {
            Ok(number) => Ok(number),
            Err(fault) => {
                self.plan.sinks.truncate(sinks);
                self.plan.buffers.truncate(buffers);
                Err(fault)
            }
        }
    }
}

/// How many crossfades a node of this operator is itself: 1 for a crossfade, 0 for any other.
fn own_crossfades(op: &Op) -> u32
    ensures { result ≡ own_crossfades op.now }
{
    match op {
        Op::Crossfade { .. } => 1,
        _ => 0,
    }
}
