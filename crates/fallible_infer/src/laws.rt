// Laws of infallible nodes, for whatever goes over them. Each is a contract of a function that does nothing.
ghost use Rattle.std.specs.Prelude.{◌≡◌, ℕ, ◌<◌, Bool, List, length};
ghost use Rattle.plan_core.specs.declared.node.Node.{Node as PlanNode};
ghost use Rattle.plan_core.specs.Plans.{AreNodes};
ghost use Rattle.fallible_infer.specs.Infallible.{IsMarking};

/// The rule decides for each node whether it is infallible: two markings by it agree on every node of the plan.
pub fn one_marking()
    ensures { (nodes : List PlanNode) (mark other : ℕ → Bool) (i : ℕ) → AreNodes nodes → IsMarking nodes mark
        → IsMarking nodes other → i < length nodes → mark i ≡ other i }
{}
