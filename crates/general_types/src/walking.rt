// A walk through types that finds the variables in them, behind each bound variable once.
ghost use Rattle.std.specs.Prelude.{◌≡◌, ◌<◌, ◌++◌, ◌∷◌, Some, [], length, map, OnOk};
ghost use Rattle.type_terms.specs.Nested.{terms};
ghost use Rattle.type_terms.specs.Table.{Table, IsOver, bound_at};
ghost use Rattle.type_terms.specs.Term.{source_term, term_of, variable};
ghost use Rattle.general_types.specs.Walks.{AddsKind, Every, Leads, held_of};

use indexmap::IndexSet;
use liq_base::Memory;
use type_terms::{KindTerm, Subst, Ty, resolved_kind};

/// How many steps a walk may take. One that takes more is given up as if memory had run out.
const MOST_STEPS: u64 = 4_194_304;

/// The variables that walks have come to: those that are bound to nothing, and the bound ones behind which they went.
#[derive(Drop)]
pub struct Reached {
    pub types: IndexSet<u64>,
    pub kinds: IndexSet<u64>,
    pub passed: IndexSet<u64>,
}

/// Adds the kind variable to which a kind comes when all bindings are followed, if that is one.
pub fn add_kind(subst: &Subst, kinds: &mut IndexSet<u64>, kind: KindTerm) -> Result<(), Memory>
    requires over { IsOver subst.now (source_term kind) }
    ensures { OnOk result (AddsKind subst.now kind kinds.old.keys kinds.new.keys) }
{
    match resolved_kind(subst, kind) {
        KindTerm::Var(number) => {
            kinds.insert(number)?;
            Ok(())
        }
        KindTerm::Fixed(_) => Ok(()),
    }
}

/// Puts `bound`, what the type variable of this number is bound to, on the stack of types to walk, if that was not
/// done before: `reached.passed` has the variables for which it was. One that is bound to a variable is not noted
/// there: what that leads to is.
fn push_bound<'a>(
    work: &mut Vec<&'a Ty>,
    reached: &mut Reached,
    number: u64,
    bound: &'a Ty,
) -> Result<(), Memory>
    ensures { OnOk result ((s : Table) → IsOver s (term_of bound.now)
        → bound_at s.types number ≡ Some (term_of bound.now)
        → Leads s (terms work.old.items ++ variable number
        ∷ []) (terms work.new.items) (held_of reached.old) (held_of reached.new)) }
{
    match bound {
        Ty::Var(_) => {
            work.push(bound)?;
            Ok(())
        }
        _ => {
            if !reached.passed.insert(number)? {
                return Ok(());
            }
            work.push(bound)?;
            Ok(())
        }
    }
}

/// Notes the type variable of this number, if it is free; else puts what it is bound to on the stack of types to
/// walk.
pub fn visit_variable<'a>(
    work: &mut Vec<&'a Ty>,
    subst: &'a Subst,
    reached: &mut Reached,
    number: u64,
) -> Result<(), Memory>
    requires inside { number < length subst.now.types }
    ensures { OnOk result (Leads subst.now (terms work.old.items ++ variable number
        ∷ []) (terms work.new.items) (held_of reached.old) (held_of reached.new)) }
{
    subst.is_sound();
    match subst.bound(number) {
        None => {
            reached.types.insert(number)?;
            Ok(())
        }
        Some(bound) => push_bound(work, reached, number, bound),
    }
}

/// Puts the parts of a tuple on the stack of types to walk.
fn push_parts<'a>(work: &mut Vec<&'a Ty>, parts: &'a [Ty]) -> Result<(), Memory>
    ensures { OnOk result (terms work.new.items ≡ terms work.old.items ++ map term_of parts.now) }
{
    for part in parts {
        work.push(part)?;
    }
    Ok(())
}

/// One step of the walk that gathers free variables: takes up a type that stood on top of the stack `work`. A free
/// variable goes into `reached`, and the parts of a type onto the stack. A type without parts adds nothing.
fn visit<'a>(
    work: &mut Vec<&'a Ty>,
    subst: &'a Subst,
    reached: &mut Reached,
    ty: &'a Ty,
) -> Result<(), Memory>
    requires over { IsOver subst.now (term_of ty.now) }
    ensures { OnOk result (Leads subst.now (terms work.old.items ++ term_of ty.now
        ∷ []) (terms work.new.items) (held_of reached.old) (held_of reached.new)) }
{
    match ty {
        Ty::Var(number) => visit_variable(work, subst, reached, *number),
        Ty::Source(kind) => add_kind(subst, &mut reached.kinds, *kind),
        Ty::List(item) => {
            work.push(item)?;
            Ok(())
        }
        Ty::Tuple(parts) => push_parts(work, parts),
        _ => Ok(()),
    }
}

/// Gathers the free variables of all types on the stack, and of what they lead to, in `reached`. The stack is empty
/// behind it. A walk of 4194304 steps or more is given up as if memory were refused.
pub fn walk<'a>(
    work: &mut Vec<&'a Ty>,
    subst: &'a Subst,
    reached: &mut Reached,
) -> Result<(), Memory>
    requires over { Every (IsOver subst.now) (terms work.old.items) }
    ensures { OnOk result (Leads subst.now (terms work.old.items) [] (held_of reached.old) (held_of reached.new)) }
{
    for _step in 0..MOST_STEPS {
        let Some(next) = work.pop() else {
            return Ok(());
        };
        visit(work, subst, reached, next)?;
    }
    Err(Memory)
}
