// Laws of what is needed. A caller that needs one calls its function, which does nothing.
ghost use Rattle.std.specs.Prelude.{◌≡◌, ◌<◌, ℕ, Bool, List, false, length, true};
ghost use Rattle.fallible_infer.specs.Infallible.{IsMarking, infallible_by, mark_at};
ghost use Rattle.plan_core.specs.declared.node.Node.{Node as PlanNode};
ghost use Rattle.plan_core.specs.declared.node.Op.{Op as PlanOp};
ghost use Rattle.plan_core.specs.Plans.{AreNodes, HasChildren};
ghost use Rattle.plan_blames.specs.Blames.{reds_from};
ghost use Rattle.plan_blames.specs.Needs.{Leads, needs};

/// If a source that is needed never falls silent, the source that needs it does not either: so to mend that one is
/// enough.
pub fn needed_mends()
    ensures { (mark : ℕ → Bool) (op : PlanOp) (children : List ℕ) (child : ℕ)
        → HasChildren op (length children) → needs op children child ≡ true
        → mark child ≡ true → infallible_by mark op children ≡ true }
{}

/// From a refused source down, from each to the only one that it needs, all sources are red: marked as to blame in the
/// plan's picture.
pub fn needed_is_red()
    ensures { (nodes : List PlanNode) (mark : ℕ → Bool) (refused n : ℕ)
        → AreNodes nodes → IsMarking nodes mark → refused < length nodes
        → mark refused ≡ false → Leads nodes refused n
        → mark_at (reds_from mark refused 0 nodes) n ≡ true }
{}
