// A type with all that is bound put in.
ghost use Rattle.std.specs.Prelude.{◌≡◌, Option, List, IfOk};
ghost use Rattle.type_terms.specs.Resolved.{IsResolved};
ghost use Rattle.type_terms.specs.Table.{table, IsOver, IsSound};
ghost use Rattle.type_terms.specs.Term.{term_of};

use crate::differ::resolve_kind;
use crate::occurs::resolve;
use crate::ty::{KindTerm, Ty};
use crate::type_variable::TypeVariable;
use liq_base::Memory;
use std::alloc::Global;

/// How many places the types of a script may have together, beside those that each variable allows. A place is a node
/// of a type that is built or compared.
pub const MOST_PLACES: u64 = 1_048_576;

/// How many places a type variable allows. Each expression has one or two, so types of usual size never take of the
/// others.
pub const PLACES_A_VARIABLE: u64 = 16;

/// Adds to `left`, the places (nodes of types) that may still be built or compared, those that come with one more type
/// variable.
pub fn allow(left: &mut u64) {
    *left = left.saturating_add(PLACES_A_VARIABLE);
}

/// A copy of the type with all bindings put in, so that only free variables are left. `nodes` counts how many nodes it
/// may still have. With more nodes, or more than `levels` levels, it is given up as if memory had run out.
pub fn settle(
    alloc: Global,
    types: &[TypeVariable],
    kinds: &[Option<KindTerm>],
    ty: &Ty,
    levels: u32,
    nodes: &mut u64,
) -> Result<Ty, Memory>
    requires sound { IsSound (table types.now kinds.now) }
    requires over { IsOver (table types.now kinds.now) (term_of ty.now) }
    ensures { IfOk result (λ u. IsResolved (table types.now kinds.now) (term_of ty.now) (term_of u)) }
{
    let below = levels.checked_sub(1).ok_or(Memory)?;
    *nodes = nodes.checked_sub(1).ok_or(Memory)?;
    let ty = resolve(types, ty);
    match ty {
        Ty::Int => Ok(Ty::Int),
        Ty::Decimal => Ok(Ty::Decimal),
        Ty::Text => Ok(Ty::Text),
        Ty::Bool => Ok(Ty::Bool),
        Ty::Unit => Ok(Ty::Unit),
        Ty::Format => Ok(Ty::Format),
        Ty::Pred => Ok(Ty::Pred),
        Ty::Var(number) => Ok(Ty::Var(*number)),
        Ty::Source(kind) => {
            let kind = resolve_kind(kinds, *kind);
            Ok(Ty::Source(kind))
        }
        Ty::List(item) => {
            let item = settle(alloc, types, kinds, item, below, nodes)?;
            let item = Box::new(alloc, item)?;
            Ok(Ty::List(item))
        }
        Ty::Tuple(parts) => {
            let mut settled = Vec::with_capacity(alloc, parts.len())?;
            for part in parts {
                let next = settle(alloc, types, kinds, part, below, nodes)?;
                settled.push(next)?;
            }
            Ok(Ty::Tuple(settled))
        }
    }
}
