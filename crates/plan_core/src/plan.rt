// Plans, and how a node is added.
ghost use Rattle.std.specs.Prelude.{◌≡◌, ◌+◌, ◌^◌, ◌<◌, ◌≤◌, ◌↔◌, ◌++◌, ◌∷◌, [], length, All, IfOk, OnOk, OnErr};
ghost use Rattle.std.specs.Prelude.{IsErrOf};
ghost use Rattle.plan_core.specs.Plans.{crossfades_from, AreNodes, IsNodeOver, IsNoReader, IsWellFormed};

use crate::{BufferPlan, Items, Node, SinkPlan};
use liq_base::Memory;
use liq_base::limits::{MAX_CHILDREN, MAX_CROSSFADES, MAX_NODES};
use thiserror::Error;

/// What a script stands for: nodes, of which each has smaller numbers below it, sinks and buffers, each counted from 0.
#[derive(Debug, Drop)]
pub struct Plan {
    /// Samples a second, from `MIN_RATE` to `MAX_RATE`.
    pub rate: u32,

    /// Samples of a tick, from 1 to `MAX_FRAME`.
    pub frame: u32,

    /// The nodes, at most `MAX_NODES`.
    pub nodes: Items<Node>,

    /// The outputs and the feeds, in the order of the script.
    pub sinks: Items<SinkPlan>,

    /// The buffers. Each has one feed among the sinks and one reader among the nodes.
    pub buffers: Items<BufferPlan>,
}

/// Why a node was not added.
#[derive(Clone, Copy, Debug, PartialEq, Eq, Hash, Error)]
pub enum PlanFault {
    /// As many nodes as a plan may have are there.
    #[error("too many sources")]
    TooManySources,

    /// Memory was refused.
    #[error("out of memory")]
    Memory,
}

impl From<Memory> for PlanFault {
    ghost use Rattle.plan_core.specs.declared.plan.PlanFault.TheVariants as fault;

    ghost from_gives = { λ _ e. e ≡ fault.Memory };

    // Turns a refusal of memory into the fault of a node that was not added.
    fn from(_refused: Memory) -> PlanFault {
        Self::Memory
    }
}

impl Plan {
    /// Adds a node, whose children are nodes of the plan, at most `MAX_CHILDREN` of them, and answers its number.
    /// No path down from it may have more than `MAX_CROSSFADES` crossfades; the caller sees to that.
    /// `TooManySources` comes exactly where `MAX_NODES` nodes are there. After any `Err` the plan is unchanged.
    pub fn push_node(&mut self, node: Node) -> Result<u32, PlanFault>
        requires children { All (λ child. child < length self.old.nodes) node.children }
        requires few { length node.children ≤ MAX_CHILDREN }
        requires crossfades { crossfades_from self.old.nodes node ≤ MAX_CROSSFADES }
        ensures number { IfOk result (λ number. number ≡ length self.old.nodes) }
        ensures added { OnOk result (self.new ≡ record self.old { nodes = self.old.nodes ++ node ∷ [] }) }
        ensures room { OnOk result (length self.old.nodes < MAX_NODES) }
        ensures kept { OnOk result
            (AreNodes self.old.nodes → IsNodeOver self.old.nodes node → AreNodes self.new.nodes) }
        ensures well_formed { OnOk result (IsWellFormed self.old → IsNodeOver self.old.nodes node → IsNoReader node.op
            → IsWellFormed self.new) }
        ensures full { IsErrOf result PlanFault.TooManySources ↔ (MAX_NODES ≤ length self.old.nodes) }
        ensures unchanged { OnErr result (self.new ≡ self.old) }
    {
        let number = self.nodes.len();
        if number >= MAX_NODES as usize {
            return Err(PlanFault::TooManySources);
        }
        self.nodes.push(node)?;
        Ok(number as u32)
    }

    /// Adds a buffer and the sink that feeds it from the node `source`, and returns the buffer's number.
    /// The 2^32nd sink or buffer is refused as want of memory is; after any `Err` neither is added.
    pub(crate) fn push_fed(&mut self, source: u32, buffer: BufferPlan) -> Result<u32, Memory>
        ensures number { IfOk result (λ number. number ≡ length self.old.buffers) }
        ensures added { OnOk result (self.new ≡ record self.old {
          sinks = self.old.sinks ++ SinkPlan.Feed (length self.old.buffers) source ∷ [];
          buffers = self.old.buffers ++ buffer ∷ [];
        }) }
        ensures room { OnOk result (length self.old.sinks + 1 < 2 ^ 32) }
        ensures unchanged { OnErr result (self.new ≡ self.old) }
    {
        let Ok(number) = u32::try_from(self.buffers.len()) else {
            return Err(Memory);
        };
        if self.sinks.len() >= u32::MAX as usize {
            return Err(Memory);
        }
        self.buffers.push(buffer)?;
        let feed = SinkPlan::Feed {
            buffer: number,
            node: source,
        };
        match self.sinks.push(feed) {
            Ok(()) => Ok(number),
            Err(refused) => {
                self.buffers.truncate(number as usize);
                Err(refused)
            }
        }
    }
}
