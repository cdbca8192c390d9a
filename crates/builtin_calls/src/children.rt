// The builtins over a list of sources: `fallback`, `switch`, `sequence`, `rotate`, `random` and `add`.
ghost use Rattle.std.specs.Prelude.{◌≡◌, ◌<◌, ◌≤◌, All, IfOk, length, map};
ghost use Rattle.liq_base.specs.declared.limits.TheConstants.{MAX_CHILDREN};
ghost use Rattle.time_pred.specs.View.{view_shared};
ghost use Rattle.script_values.specs.Gives.{Gives};
ghost use Rattle.script_values.specs.View.{view_value};
ghost use Rattle.script_values.specs.Views.{view_given};
ghost use Rattle.builtin_calls.specs.Builtins.{fallback, few_pairs, few_sources, over_sources, random, seed_of};
ghost use Rattle.builtin_calls.specs.Builtins.{sensitive_or, add_sources, switch};

use crate::nodes::{add, few};
use crate::parts::{bool_or, int_or, one_kind};
use crate::sources::{Pairs, plain_pairs, plain_sources};
use liq_base::Kind;
use plan_core::{Draft, Items, Op, Preds};
use script_values::{Given, Machine, Stop, Value};
use std::alloc::Global;

/// `fallback(track_sensitive=true, sources)`: adds a node that plays the first source that is ready. `given` has the
/// call's arguments, `kinds` the kind of the node (mono or stereo); the value is the node as a source.
#[tactic(auto, unfolding(crate::specs::Builtins::fallback))]
pub(crate) fn fallback(
    alloc: Global,
    kinds: &[Kind],
    given: &mut Vec<Given>,
    machine: &mut Machine,
) -> Result<Value, Stop>
    ensures { Gives (λ v. (view_value v, machine.new)) result
        (fallback kinds.now (map view_given given.old.items) machine.old) }
{
    let sensitive = sensitive_or(given)?;
    over_sources(alloc, Op::Fallback { sensitive }, kinds, given, machine)
}

/// `switch(track_sensitive=true, pairs)`: adds a node that plays the first source that is ready and whose predicate
/// holds. `given` has the call's arguments, `kinds` the kind of the node (mono or stereo); the value is the node as a
/// source.
#[tactic(auto, unfolding(crate::specs::Builtins::switch))]
pub(crate) fn switch(
    alloc: Global,
    kinds: &[Kind],
    given: &mut Vec<Given>,
    machine: &mut Machine,
) -> Result<Value, Stop>
    ensures { Gives (λ v. (view_value v, machine.new)) result
        (switch kinds.now (map view_given given.old.items) machine.old) }
{
    let sensitive = sensitive_or(given)?;
    let kind = one_kind(kinds)?;
    let pairs = few_pairs(alloc, &machine.plan, kind, given)?;
    let preds = Preds::from_vec(pairs.preds);
    add(
        machine,
        Op::Switch { sensitive, preds },
        kind,
        Items::from_vec(pairs.sources),
    )
}

/// `random(seed=0, sources)`, whose name stands at token `at`: adds a node that chooses a source by chance for each
/// track. `given` has the call's arguments, `kinds` the kind of the node (mono or stereo); the value is the node as a
/// source.
#[tactic(auto, unfolding(crate::specs::Builtins::random))]
pub(crate) fn random(
    alloc: Global,
    at: u32,
    kinds: &[Kind],
    given: &mut Vec<Given>,
    machine: &mut Machine,
) -> Result<Value, Stop>
    ensures { Gives (λ v. (view_value v, machine.new)) result
        (random at kinds.now (map view_given given.old.items) machine.old) }
{
    let number = int_or(given, "seed", 0)?;
    let kind = one_kind(kinds)?;
    let sources = plain_sources(alloc, &machine.plan, kind, given)?;
    let seed = seed_of(at, number)?;
    few(&sources)?;
    add(machine, Op::Random { seed }, kind, Items::from_vec(sources))
}

/// `add(normalize=true, sources)`: adds a node that mixes these sources, as their mean with `normalize` and else as
/// their sum. `given` has the call's arguments, `kinds` the kind of the node (mono or stereo); the value is the node as
/// a source.
#[tactic(auto, unfolding(crate::specs::Builtins::add_sources))]
pub(crate) fn sum(
    alloc: Global,
    kinds: &[Kind],
    given: &mut Vec<Given>,
    machine: &mut Machine,
) -> Result<Value, Stop>
    ensures { Gives (λ v. (view_value v, machine.new)) result
        (add_sources kinds.now (map view_given given.old.items) machine.old) }
{
    let normalize = bool_or(given, "normalize", true)?;
    over_sources(alloc, Op::Add { normalize }, kinds, given, machine)
}

/// Adds a node of this operator that reads a list of sources, the one argument that is left, as `sequence(sources)` and
/// `rotate(sources)` do. `kinds` has the kind of the node (mono or stereo); the value is the node as a source.
#[tactic(auto, unfolding(crate::specs::Builtins::over_sources))]
pub(crate) fn over_sources(
    alloc: Global,
    op: Op,
    kinds: &[Kind],
    given: &mut Vec<Given>,
    machine: &mut Machine,
) -> Result<Value, Stop>
    ensures { Gives (λ v. (view_value v, machine.new)) result
        (over_sources op kinds.now (map view_given given.old.items) machine.old) }
{
    let kind = one_kind(kinds)?;
    let children = few_sources(alloc, &machine.plan, kind, given)?;
    add(machine, op, kind, Items::from_vec(children))
}

// The seed of a `random`: the number, which must not be below zero; otherwise a bad value at token `at`, the name of
// the call.
fn seed_of(at: u32, number: i64) -> Result<u64, Stop>
    ensures { Gives (λ n. n) result (seed_of at number) }
{
    if number < 0 {
        return Err(Stop::BadValue(at));
    }
    Ok(number as u64)
}

// Takes the first argument without a label, a list of sources of this kind, and gives the numbers of their nodes, at
// most 65535. More are a fault.
#[tactic(auto, unfolding(crate::specs::Builtins::few_sources))]
fn few_sources(
    alloc: Global,
    plan: &Draft,
    kind: Kind,
    given: &mut Vec<Given>,
) -> Result<Vec<u32>, Stop>
    ensures given { Gives (λ ns. ns.items) result (few_sources plan.now.nodes kind (map view_given given.old.items)) }
    ensures there { IfOk result (λ ns. All (λ n. n < length plan.now.nodes) ns.items) }
    ensures short { IfOk result (λ ns. length ns.items ≤ MAX_CHILDREN) }
{
    let sources = plain_sources(alloc, plan, kind, given)?;
    few(&sources)?;
    Ok(sources)
}

// Takes the first argument without a label, the cases of a `switch`, and gives their predicates of time and the nodes
// of their sources, at most 65535. More are a fault.
#[tactic(auto, unfolding(crate::specs::Builtins::few_pairs))]
fn few_pairs(alloc: Global, plan: &Draft, kind: Kind, given: &mut Vec<Given>) -> Result<Pairs, Stop>
    ensures given { Gives (λ ps. (map view_shared ps.preds.items, ps.sources.items)) result
        (few_pairs plan.now.nodes kind (map view_given given.old.items)) }
    ensures there { IfOk result (λ ps. All (λ n. n < length plan.now.nodes) ps.sources.items) }
    ensures short { IfOk result (λ ps. length ps.sources.items ≤ MAX_CHILDREN) }
{
    let pairs = plain_pairs(alloc, plan, kind, given)?;
    few(&pairs.sources)?;
    Ok(pairs)
}

// Takes the argument `track_sensitive`, true where it is missing: whether a selection changes its child only where a
// track ends.
#[tactic(auto, unfolding(crate::specs::Builtins::sensitive_or))]
fn sensitive_or(given: &mut Vec<Given>) -> Result<bool, Stop>
    ensures { Gives (λ b. (b, map view_given given.new.items)) result (sensitive_or (map view_given given.old.items)) }
{
    bool_or(given, "track_sensitive", true)
}
