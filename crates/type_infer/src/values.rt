// The type of the value of a statement.
ghost use Rattle.std.specs.Prelude.{[], IfOk};
ghost use Rattle.script_grammar.specs.View.{view_call, view_full, view_if};
ghost use Rattle.expression_types.specs.Seen.{IsSeen, env_of};
ghost use Rattle.type_infer.specs.States.{IsNoted, IsTypedAs};

use crate::steps::TypedExpr;
use expression_types::{FoundUse, Names, type_call, type_choice, type_full};
use liq_base::Memory;
use script_grammar::tree::{Call, Full, If};
use std::alloc::Global;
use type_terms::Subst;

/// Room for the uses of a value at first. Most values use two names at most, and a list that begins without room takes
/// room for four at its first use.
const USES_OF_A_VALUE: usize = 2;

/// Types a value outside of defs, where it sees the names in `seen`: answers its type variable and the uses of names
/// in it, or `None` where it has no type.
pub fn value_type(
    alloc: Global,
    subst: &mut Subst,
    seen: Names<'_, '_>,
    full: &Full,
) -> Result<Option<TypedExpr>, Memory>
    requires seen { IsSeen subst.old seen [] }
    ensures { IfOk result (λ r. IsTypedAs subst.old subst.new (env_of seen.entry) seen.entry.defs.now
        (view_full full.now) r) }
{
    let mut uses = Vec::with_capacity(alloc, USES_OF_A_VALUE)?;
    match type_full(alloc, subst, seen, &mut uses, full)? {
        None => Ok(None),
        Some(var) => Ok(Some(noted(subst, var, uses))),
    }
}

/// Types a call outside of defs, where it sees the names in `seen`: answers its type variable and the uses of names
/// in it, or `None` where it has no type.
pub fn run_type(
    alloc: Global,
    subst: &mut Subst,
    seen: Names<'_, '_>,
    call: &Call,
) -> Result<Option<TypedExpr>, Memory>
    requires seen { IsSeen subst.old seen [] }
    ensures { IfOk result (λ r. IsTypedAs subst.old subst.new (env_of seen.entry) seen.entry.defs.now
        (view_call call.now) r) }
{
    let mut uses = Vec::with_capacity(alloc, USES_OF_A_VALUE)?;
    match type_call(alloc, subst, seen, &mut uses, call)? {
        None => Ok(None),
        Some(var) => Ok(Some(noted(subst, var, uses))),
    }
}

/// Types an `if` outside of defs, where it sees the names in `seen`: answers its type variable and the uses of names
/// in it, or `None` where it has no type.
pub fn choice_type(
    alloc: Global,
    subst: &mut Subst,
    seen: Names<'_, '_>,
    choice: &If,
) -> Result<Option<TypedExpr>, Memory>
    requires seen { IsSeen subst.old seen [] }
    ensures { IfOk result (λ r. IsTypedAs subst.old subst.new (env_of seen.entry) seen.entry.defs.now
        (view_if choice.now) r) }
{
    let mut uses = Vec::with_capacity(alloc, USES_OF_A_VALUE)?;
    match type_choice(alloc, subst, seen, &mut uses, choice)? {
        None => Ok(None),
        Some(var) => Ok(Some(noted(subst, var, uses))),
    }
}

/// Puts the type variable and the uses that were found for an expression together, as one value. The call on `subst`
/// does nothing: it brings a law to the contract.
fn noted(subst: &Subst, var: u64, uses: Vec<FoundUse>) -> TypedExpr
    ensures { IsNoted subst.now var uses.items result }
{
    subst.has_defaults();
    TypedExpr { var, uses }
}
