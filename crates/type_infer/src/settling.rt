// The uses of statements under the default solution.
ghost use Rattle.std.specs.Prelude.{◌≡◌, map, option_map, IfOk, OnOk};
ghost use Rattle.type_steps.specs.Environment.{AreKindsOver, ArePendingOver, AreUsesOver, IsKindOver, IsPendingOver};
ghost use Rattle.type_steps.specs.Environment.{IsTextOver};
ghost use Rattle.expression_types.specs.Seen.{founds, pending, text_use};
ghost use Rattle.type_infer.specs.Settling.{AddsDones, AddsFounds, AddsTexts, AreDefaultOf, AreDonesOver};
ghost use Rattle.type_infer.specs.Settling.{AreSettledKinds, AreSettledTexts, IsSettledKind, IsSettledText};
ghost use Rattle.type_infer.specs.Settling.{free_kind as the_free_kind};
ghost use Rattle.type_infer.specs.States.{dones};
ghost use Rattle.type_infer.specs.Steps.{defined_as, done_in, dones_in};

use crate::steps::{Step, Typing};
use expression_types::{FoundUse, KnownDef, TextKind, TextUse};
use liq_base::{Kind, Memory};
use std::alloc::Global;
use type_terms::{KindTerm, Subst, resolved_kind};
use typing_rules::{KindOf, Use, UseKinds};

/// The uses of all statements with their final kinds, stereo for each that is still open, in the order of the tokens.
/// The list has room for `room` uses at first. What was found is freed as it is turned into the answer, so that its
/// memory is taken again at once.
pub fn settled_uses(alloc: Global, typing: Typing<'_>, room: usize) -> Result<Vec<Use>, Memory>
    requires over { AreDonesOver typing.subst (dones typing) }
    ensures { IfOk result (λ us. AreDefaultOf typing.entry.subst (dones typing.entry) us.items) }
{
    let steps = typing.steps;
    steps_uses(alloc, &typing.subst, typing.defs.as_slice(), steps, room)
}

/// The final kind of a kind whose bindings were all followed: a variable that nothing binds is stereo.
fn free_kind(kind: KindTerm) -> Kind
    ensures { result ≡ the_free_kind kind }
{
    match kind {
        KindTerm::Fixed(kind) => kind,
        KindTerm::Var(_) => Kind::Stereo,
    }
}

/// The final kind of a kind term, mono or stereo: what its variable is bound to, and stereo, the default, for one
/// that nothing binds.
fn settle_kind(subst: &Subst, kind: KindTerm) -> Kind
    requires over { IsKindOver subst.now kind }
    ensures { IsSettledKind subst.now kind result }
{
    free_kind(resolved_kind(subst, kind))
}

/// The final kinds of one use outside of defs, where a variable that nothing binds is stereo.
fn settled_kinds(alloc: Global, subst: &Subst, kinds: &[KindTerm]) -> Result<UseKinds, Memory>
    requires over { AreKindsOver subst.now kinds.now }
    ensures { IfOk result (AreSettledKinds subst.now kinds.now) }
{
    let mut settled = UseKinds::with_room(alloc, kinds.len())?;
    for kind in kinds {
        settled.push(KindOf::Fixed(settle_kind(subst, *kind)))?;
    }
    Ok(settled)
}

/// Adds to `uses` those that were found outside of defs, with their final kinds.
fn add_founds(
    alloc: Global,
    subst: &Subst,
    found: Vec<FoundUse>,
    uses: &mut Vec<Use>,
) -> Result<(), Memory>
    requires over { AreUsesOver subst.now (founds found.items) }
    ensures { OnOk result (AddsFounds subst.now (founds found.items) uses.old.items uses.new.items) }
{
    for one in found {
        let kinds = settled_kinds(alloc, subst, &one.kinds)?;
        uses.push(Use {
            at: one.at,
            target: one.target,
            kinds,
        })?;
    }
    Ok(())
}

/// The final form of a kind in a def's text: an open kind, which each call gives, keeps its number as `Given`. Any
/// other is mono or stereo for good.
fn settle_text(subst: &Subst, kind: TextKind) -> KindOf
    requires over { IsPendingOver subst.now (pending kind) }
    ensures { IsSettledText subst.now (pending kind) result }
{
    match kind {
        TextKind::Outer(outer) => KindOf::Fixed(settle_kind(subst, outer)),
        TextKind::Open(number) => KindOf::Given(number),
    }
}

/// The final kinds (no texts) of one use in a def's text: an open kind keeps its number, and any other is mono or
/// stereo for good.
fn settled_texts(alloc: Global, subst: &Subst, kinds: &[TextKind]) -> Result<UseKinds, Memory>
    requires over { ArePendingOver subst.now (map pending kinds.now) }
    ensures { IfOk result (AreSettledTexts subst.now (map pending kinds.now)) }
{
    let mut settled = UseKinds::with_room(alloc, kinds.len())?;
    for kind in kinds {
        settled.push(settle_text(subst, *kind))?;
    }
    Ok(settled)
}

/// Adds to `uses` those in a def's text, with their final kinds.
fn add_texts(
    alloc: Global,
    subst: &Subst,
    text: &[TextUse],
    uses: &mut Vec<Use>,
) -> Result<(), Memory>
    requires over { IsTextOver subst.now (map text_use text.now) }
    ensures { OnOk result (AddsTexts subst.now (map text_use text.now) uses.old.items uses.new.items) }
{
    for one in text {
        let kinds = settled_texts(alloc, subst, &one.kinds)?;
        uses.push(Use {
            at: one.at,
            target: one.target,
            kinds,
        })?;
    }
    Ok(())
}

/// Adds to `uses` those in a def's text, with their final kinds. Without a def it adds none.
fn add_def(
    alloc: Global,
    subst: &Subst,
    def: Option<&KnownDef<'_>>,
    uses: &mut Vec<Use>,
) -> Result<(), Memory>
    requires over { AreDonesOver subst.now (defined_as (option_map (λ d. d.now) def)) }
    ensures { OnOk result (AddsDones subst.now (defined_as (option_map (λ d. d.now) def.entry)) uses.old.items
        uses.new.items) }
{
    match def {
        None => Ok(()),
        Some(def) => add_texts(alloc, subst, &def.uses, uses),
    }
}

/// Adds to `uses` those that one typed statement has left, with their final kinds: the uses of a bound value, of a
/// def's text, or of what runs. A step names its def by its place in `defs`.
fn add_step(
    alloc: Global,
    subst: &Subst,
    defs: &[KnownDef<'_>],
    step: Step,
    uses: &mut Vec<Use>,
) -> Result<(), Memory>
    requires over { AreDonesOver subst.now (done_in defs.now step) }
    ensures { OnOk result (AddsDones subst.now (done_in defs.now step) uses.old.items uses.new.items) }
{
    match step {
        Step::Bound(_, found) => add_founds(alloc, subst, found, uses),
        Step::Defined(place) => add_def(alloc, subst, defs.get(place), uses),
        Step::Ran(found) => add_founds(alloc, subst, found, uses),
    }
}

/// The uses that all typed statements have left, with their final kinds and in the order of the statements. A step
/// names its def by its place in `defs`. The list has room for `room` uses at first.
fn steps_uses(
    alloc: Global,
    subst: &Subst,
    defs: &[KnownDef<'_>],
    steps: Vec<Step>,
    room: usize,
) -> Result<Vec<Use>, Memory>
    requires over { AreDonesOver subst.now (dones_in defs.now steps.items) }
    ensures { IfOk result (λ us. AreDefaultOf subst.now (dones_in defs.now steps.items) us.items) }
{
    let mut uses = Vec::with_capacity(alloc, room)?;
    for step in steps {
        add_step(alloc, subst, defs, step, &mut uses)?;
    }
    Ok(uses)
}
