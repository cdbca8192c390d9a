// The typings of a def.
ghost use Rattle.std.specs.Prelude.{◌≡◌, ◌<◌, [], length, IfOk, IfSome};
ghost use Rattle.script_grammar.specs.View.{view_def};
ghost use Rattle.type_terms.specs.Term.{term_of, variable};
ghost use Rattle.type_instances.specs.Schemes.{scheme_of};
ghost use Rattle.general_types.specs.Holding.{AreThere};
ghost use Rattle.type_steps.specs.Environment.{AreUsesOver};
ghost use Rattle.expression_types.specs.Seen.{IsSeen, env_of, founds};
ghost use Rattle.expression_types.specs.Order.{tokens_used};
ghost use Rattle.type_steps.specs.Defs.{HoldsBefore};
ghost use Rattle.type_infer.specs.Answers.{AreSaidAs, IsDefTyped, IsNumberedDef, text_of};
ghost use Rattle.type_infer.specs.PartsOf.{AreVars};
ghost use Rattle.type_infer.specs.DefSteps.{IsGeneralDef, IsGeneralType, IsKnownDef};

use crate::parts::{TypedParts, type_parts};
use crate::texts::{push_all_kinds, push_variables, text_of_uses};
use expression_types::{FoundUse, KnownDef, Names};
use general_types::{DefType, Held, generalise};
use liq_base::Memory;
use name_scope::parameters;
use script_grammar::tree::Def;
use std::alloc::Global;
use type_terms::{KindTerm, Subst, Ty};

/// The general type of a def and the uses in its text; `None` where it has no typing. It fails only where memory is
/// refused.
///
/// `seen` is what is seen outside of defs, and `held` what the types of earlier values hold, before the def and then
/// behind it. Where the def has a typing, its text has one use for each of its names, in the order of the tokens. Its
/// open kinds are numbered as the text names them first, and are all that the general type has.
pub fn type_def<'a>(
    alloc: Global,
    subst: &mut Subst,
    seen: Names<'_, '_>,
    held: &mut Held,
    def: &'a Def,
) -> Result<Option<KnownDef<'a>>, Memory>
    requires seen { IsSeen subst.old seen [] }
    requires outside { seen.inner.now ≡ [] }
    requires held { HoldsBefore subst.old (env_of seen).before held.old }
    ensures typed { IfOk result
        (λ r. IsDefTyped subst.old subst.new (env_of seen.entry).targets (env_of seen.entry).before def.entry.now
        held.new r) }
    ensures order { IfOk result
        (λ r. IfSome r (λ t. AreSaidAs seen.entry (tokens_used (view_def def.entry.now)) (text_of t))) }
    ensures numbered { IfOk result (λ r. IfSome r (λ t. IsNumberedDef subst.new t)) }
{
    let mut uses = Vec::new(alloc);
    type_def_with(alloc, subst, seen, held, &mut uses, def)
}

/// Types a def: answers its general type and the uses in its text, or `None` where it has no typing. `seen` are the
/// names that it sees from outside, and `held` the free variables of earlier values. `uses` is empty at first, and
/// gets the uses as they are found.
fn type_def_with<'a>(
    alloc: Global,
    subst: &mut Subst,
    seen: Names<'_, '_>,
    held: &mut Held,
    uses: &mut Vec<FoundUse>,
    def: &'a Def,
) -> Result<Option<KnownDef<'a>>, Memory>
    requires seen { IsSeen subst.old seen uses.old.items }
    requires first { uses.old.items ≡ [] }
    requires outside { seen.inner.now ≡ [] }
    requires held { HoldsBefore subst.old (env_of seen).before held.old }
    ensures typed { IfOk result
        (λ r. IsDefTyped subst.old subst.new (env_of seen.entry).targets (env_of seen.entry).before def.entry.now
        held.new r) }
    ensures order { IfOk result
        (λ r. IfSome r (λ t. AreSaidAs seen.entry (tokens_used (view_def def.entry.now)) (text_of t))) }
    ensures numbered { IfOk result (λ r. IfSome r (λ t. IsNumberedDef subst.new t)) }
{
    match type_parts(alloc, subst, seen, uses, def)? {
        None => Ok(None),
        Some(parts) => {
            let typed = general_def(alloc, subst, held, def, &parts, uses)?;
            subst.spend(typed.general.places())?;
            Ok(Some(typed))
        }
    }
}

/// The type of a def's result: the type variable that typing its parts found for it.
fn answer_of(parts: &TypedParts) -> Ty
    ensures { term_of result ≡ variable parts.now.result }
{
    Ty::Var(parts.result)
}

/// Makes a def general once its parts have types, and answers it with its general type and the uses of its text.
/// Before that, `held` (the free variables of earlier values) is brought up to the substitution. `has_defaults` does
/// nothing: it brings a law to the contract.
fn general_def<'a>(
    alloc: Global,
    subst: &Subst,
    held: &mut Held,
    def: &'a Def,
    parts: &TypedParts,
    uses: &[FoundUse],
) -> Result<KnownDef<'a>, Memory>
    requires there { AreThere subst.now held.old }
    requires params { AreVars subst.now parts.now.params.items }
    requires result { parts.now.result < length subst.now.types }
    requires uses { AreUsesOver subst.now (founds uses.now) }
    ensures general { IfOk result
        (λ t. IsGeneralDef subst.now held.old held.new def.entry.now parts.now (founds uses.now) t) }
{
    subst.has_defaults();
    held.renew(alloc, subst)?;
    let made = general_type(alloc, subst, held, parts, uses)?;
    let known = known_def(alloc, def, uses, made)?;
    Ok(known)
}

/// The general type of a def whose parts were typed, with the general kinds at the uses of its text.
fn general_type(
    alloc: Global,
    subst: &Subst,
    held: &Held,
    parts: &TypedParts,
    uses: &[FoundUse],
) -> Result<DefType, Memory>
    requires params { AreVars subst.now parts.now.params.items }
    requires result { parts.now.result < length subst.now.types }
    requires uses { AreUsesOver subst.now (founds uses.now) }
    ensures { IfOk result (λ m. IsGeneralType subst.now held.now parts.now (founds uses.now) (scheme_of m.general)
        m.text.items) }
{
    let mut params = Vec::new(alloc);
    let mut kinds = Vec::new(alloc);
    general_type_with(alloc, subst, held, parts, uses, &mut params, &mut kinds)
}

/// The general type of a def whose parts were typed, with the general kinds at the uses of its text. `params` and
/// `kinds` are empty at first: they get the parameters' types and the kinds at `uses`.
fn general_type_with(
    alloc: Global,
    subst: &Subst,
    held: &Held,
    parts: &TypedParts,
    uses: &[FoundUse],
    params: &mut Vec<Ty>,
    kinds: &mut Vec<KindTerm>,
) -> Result<DefType, Memory>
    requires params { AreVars subst.now parts.now.params.items }
    requires result { parts.now.result < length subst.now.types }
    requires uses { AreUsesOver subst.now (founds uses.now) }
    requires no_params { params.old.items ≡ [] }
    requires no_kinds { kinds.old.items ≡ [] }
    ensures { IfOk result (λ m. IsGeneralType subst.now held.now parts.now (founds uses.now) (scheme_of m.general)
        m.text.items) }
{
    push_variables(params, &parts.params)?;
    push_all_kinds(kinds, uses)?;
    let answer = answer_of(parts);
    let made = generalise(
        alloc,
        subst,
        held,
        params.as_slice(),
        &answer,
        kinds.as_slice(),
    )?;
    Ok(made)
}

/// What is kept of a typed def: its token, its parameters' names, its general type, and the uses in its text.
fn known_def<'a>(
    alloc: Global,
    def: &'a Def,
    uses: &[FoundUse],
    made: DefType,
) -> Result<KnownDef<'a>, Memory>
    ensures { IfOk result (λ t. IsKnownDef def.entry.now (founds uses.now) made t) }
{
    let params = parameters(alloc, &def.params)?;
    let text = text_of_uses(alloc, uses, made.text.as_slice())?;
    Ok(KnownDef {
        at: def.at,
        def,
        params,
        general: made.general,
        uses: text,
    })
}
