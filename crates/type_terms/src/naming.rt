// Which variables stand in a type, and a type with other variables in their places.
ghost use Rattle.std.specs.Prelude.{◌≡◌, ◌++◌, IfOk, OnOk};
ghost use Rattle.type_terms.specs.Ground.{Assignment};
ghost use Rattle.type_terms.specs.Naming.{behind, instance, kind_instance, kind_variables, new_number, type_variables};
ghost use Rattle.type_terms.specs.Term.{meaning, term_of};

use crate::ty::{KindTerm, Ty};
use liq_base::Memory;
use std::alloc::Global;

/// How many levels a type may have that this crate builds: as many as can be copied and dropped on any stack.
pub const MOST_LEVELS: u32 = 1000;

/// The numbers of the variables that stand in a type, in the order in which they stand and as often.
#[derive(Debug, Drop)]
pub struct VariableNumbers {
    pub types: Vec<u64>,
    pub kinds: Vec<u64>,
}

/// Which variables stand in the type. It takes time that grows with the type alone.
///
/// A type of more than a thousand levels is given up as if memory had run out.
pub fn variables(alloc: Global, ty: &Ty) -> Result<VariableNumbers, Memory>
    ensures types { IfOk result (λ found. found.types.items ≡ type_variables (term_of ty.now)) }
    ensures kinds { IfOk result (λ found. found.kinds.items ≡ kind_variables (term_of ty.now)) }
{
    let mut types = Vec::new(alloc);
    let mut kinds = Vec::new(alloc);
    push_variables(&mut types, &mut kinds, ty, MOST_LEVELS)?;
    Ok(VariableNumbers { types, kinds })
}

/// An instance of the type: type variable `n` has the number `types[n]`, and kind variable `n` the number `kinds[n]`.
///
/// A variable whose number is not in the list stays as it is. It takes time that grows with the type alone.
/// A type of more than a thousand levels is given up as if memory had run out.
pub fn renamed(alloc: Global, ty: &Ty, types: &[u64], kinds: &[u64]) -> Result<Ty, Memory>
    ensures instance { IfOk result (λ u. term_of u ≡ instance types.now kinds.now (term_of ty.now)) }
    ensures same { IfOk result (λ u. (a : Assignment)
        → meaning a (term_of u) ≡ meaning (behind types.now kinds.now a) (term_of ty.now)) }
{
    renamed_within(alloc, types, kinds, ty, MOST_LEVELS)
}

/// How many nodes the tree of a type has, which are counted as places against a limit of the script.
pub fn places(ty: &Ty) -> u64 {
    match ty {
        Ty::List(item) => places(item).saturating_add(1),
        Ty::Tuple(parts) => {
            let mut sum: u64 = 1;
            for part in parts {
                sum = sum.saturating_add(places(part));
            }
            sum
        }
        _ => 1,
    }
}

/// Counts `left`, how many nodes of types may still be built or compared, down by the nodes of this type's tree. Where
/// too few are left nothing changes, and it fails as if memory had run out.
pub fn spend(left: &mut u64, ty: &Ty) -> Result<(), Memory> {
    *left = left.checked_sub(places(ty)).ok_or(Memory)?;
    Ok(())
}

/// A copy of the type, with the same variables: renamed by empty lists, which change no number. A type of more than a
/// thousand levels is given up as if memory had run out.
pub fn copy(alloc: Global, ty: &Ty) -> Result<Ty, Memory>
    ensures { IfOk result (λ u. term_of u ≡ term_of ty.now) }
{
    renamed_within(alloc, &[], &[], ty, MOST_LEVELS)
}

/// Adds the numbers of the type's variables to `types`, and those of its kind variables to `kinds`, in the order in
/// which they stand. A type of more than `levels` levels is given up as if memory had run out.
fn push_variables(
    types: &mut Vec<u64>,
    kinds: &mut Vec<u64>,
    ty: &Ty,
    levels: u32,
) -> Result<(), Memory>
    ensures types { OnOk result (types.new.items ≡ types.old.items ++ type_variables (term_of ty.now)) }
    ensures kinds { OnOk result (kinds.new.items ≡ kinds.old.items ++ kind_variables (term_of ty.now)) }
{
    let below = levels.checked_sub(1).ok_or(Memory)?;
    match ty {
        Ty::List(item) => push_variables(types, kinds, item, below),
        Ty::Tuple(parts) => {
            for part in parts {
                push_variables(types, kinds, part, below)?;
            }
            Ok(())
        }
        Ty::Source(KindTerm::Var(number)) => {
            kinds.push(*number)?;
            Ok(())
        }
        Ty::Var(number) => {
            types.push(*number)?;
            Ok(())
        }
        _ => Ok(()),
    }
}

/// The new number of a variable: entry `number` of the list `news`, or `number` itself where the list is shorter.
fn renumbered(news: &[u64], number: u64) -> u64
    ensures { result ≡ new_number news.now number }
{
    match news.get(number as usize) {
        Some(new) => *new,
        None => number,
    }
}

/// A kind of a source with the new number of its variable, by the list `news`; mono and stereo stay.
fn renumbered_kind(news: &[u64], kind: KindTerm) -> KindTerm
    ensures { result ≡ kind_instance news.now kind }
{
    match kind {
        KindTerm::Fixed(kind) => KindTerm::Fixed(kind),
        KindTerm::Var(number) => KindTerm::Var(renumbered(news, number)),
    }
}

/// A copy of the type in which each variable has its new number, by the lists `types` and `kinds`. A type of more than
/// `levels` levels is given up as if memory had run out.
fn renamed_within(
    alloc: Global,
    types: &[u64],
    kinds: &[u64],
    ty: &Ty,
    levels: u32,
) -> Result<Ty, Memory>
    ensures { IfOk result (λ u. term_of u ≡ instance types.now kinds.now (term_of ty.now)) }
{
    let below = levels.checked_sub(1).ok_or(Memory)?;
    match ty {
        Ty::Int => Ok(Ty::Int),
        Ty::Decimal => Ok(Ty::Decimal),
        Ty::Text => Ok(Ty::Text),
        Ty::Bool => Ok(Ty::Bool),
        Ty::Unit => Ok(Ty::Unit),
        Ty::Format => Ok(Ty::Format),
        Ty::Pred => Ok(Ty::Pred),
        Ty::Source(kind) => Ok(Ty::Source(renumbered_kind(kinds, *kind))),
        Ty::Var(number) => Ok(Ty::Var(renumbered(types, *number))),
        Ty::List(item) => {
            let item = renamed_within(alloc, types, kinds, item, below)?;
            let item = Box::new(alloc, item)?;
            Ok(Ty::List(item))
        }
        Ty::Tuple(parts) => {
            let mut copies = Vec::with_capacity(alloc, parts.len())?;
            for part in parts {
                let next = renamed_within(alloc, types, kinds, part, below)?;
                copies.push(next)?;
            }
            Ok(Ty::Tuple(copies))
        }
    }
}
