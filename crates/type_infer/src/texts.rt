// The uses in the text of a def, from the kinds that its general type tells one after another.
ghost use Rattle.std.specs.Prelude.{◌≡◌, ◌++◌, [], map, IfOk, OnOk};
ghost use Rattle.type_terms.specs.Term.{term_of, variable};
ghost use Rattle.expression_types.specs.Seen.{found, founds, pending, text_use};
ghost use Rattle.type_infer.specs.TextUses.{kinds_in, pending_of, text_uses, use_of};

use expression_types::{FoundUse, TextKind, TextUse};
use general_types::TextKind as KindInText;
use liq_base::Memory;
use std::alloc::Global;
use std::cmp::min;
use type_terms::{KindTerm, Ty};

/// Adds, to an empty list, the type variables of these numbers as types.
pub fn push_variables(types: &mut Vec<Ty>, numbers: &[u64]) -> Result<(), Memory>
    requires { types.old.items ≡ [] }
    ensures { OnOk result (map term_of types.new.items ≡ map variable numbers.now) }
{
    for number in numbers {
        types.push(variable_type(*number))?;
    }
    Ok(())
}

/// Adds the kinds at all these uses to an empty list, use by use.
pub fn push_all_kinds(kinds: &mut Vec<KindTerm>, uses: &[FoundUse]) -> Result<(), Memory>
    requires { kinds.old.items ≡ [] }
    ensures { OnOk result (kinds.new.items ≡ kinds_in (founds uses.now)) }
{
    for found in uses {
        push_kinds(kinds, found)?;
    }
    Ok(())
}

/// The uses in a def's text as its general type keeps them. `text` has the kinds of all of them in general form, one
/// after another, and each use takes as many as it had in `uses`.
pub fn text_of_uses(
    alloc: Global,
    uses: &[FoundUse],
    text: &[KindInText],
) -> Result<Vec<TextUse>, Memory>
    ensures { IfOk result (λ us. map text_use us.items ≡ text_uses (founds uses.now) text.now) }
{
    let mut done = Vec::new(alloc);
    let mut left = text;
    for found in uses {
        let (own, rest) = left.split_at(min(found.kinds.len(), left.len()));
        done.push(use_with(alloc, found, own)?)?;
        left = rest;
    }
    Ok(done)
}

/// A type that is just the type variable of this number.
fn variable_type(number: u64) -> Ty
    ensures { term_of result ≡ variable number }
{
    Ty::Var(number)
}

/// Adds the kinds of one use to the end of the list.
fn push_kinds(kinds: &mut Vec<KindTerm>, found: &FoundUse) -> Result<(), Memory>
    ensures { OnOk result (kinds.new.items ≡ kinds.old.items ++ found.now.kinds.items) }
{
    kinds.extend_from_slice(&found.kinds)?;
    Ok(())
}

/// Turns a kind at a use in a def's text, as the general type tells it, into the form in which the use is kept:
/// `Open`, by its number among the def's open kinds, or `Outer`, from outside of the def.
fn kind_of(kind: KindInText) -> TextKind
    ensures { pending result ≡ pending_of kind }
{
    match kind {
        KindInText::Outer(term) => TextKind::Outer(term),
        KindInText::Open(place) => TextKind::Open(place),
    }
}

/// Kinds in a def's text, as the general type tells them, in the form that a kept use has.
fn kinds_of(alloc: Global, text: &[KindInText]) -> Result<Vec<TextKind>, Memory>
    ensures { IfOk result (λ ks. map pending ks.items ≡ map pending_of text.now) }
{
    let mut kinds = Vec::new(alloc);
    for kind in text {
        kinds.push(kind_of(*kind))?;
    }
    Ok(kinds)
}

/// A use in a def's text as it is kept: with its token and target, and with the general kinds `text` in place of its
/// own.
fn use_with(alloc: Global, one: &FoundUse, text: &[KindInText]) -> Result<TextUse, Memory>
    ensures { IfOk result (λ u. text_use u ≡ use_of (found one.now) text.now) }
{
    let kinds = kinds_of(alloc, text)?;
    Ok(TextUse {
        at: one.at,
        target: one.target,
        kinds,
    })
}
