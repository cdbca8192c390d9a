// Types whose variables are numbered anew, in the order of first mention.
ghost use Rattle.std.specs.Prelude.{◌≡◌, ◌∷◌, ℕ, List, [], Some, length, map, slice_get, IfOk, OnOk};
ghost use Rattle.std.specs.List.{flat_map};
ghost use Rattle.type_terms.specs.Table.{IsOver};
ghost use Rattle.type_terms.specs.Term.{source_term, term_of};
ghost use Rattle.typing_rules.specs.Kinds.{numbered_on};
ghost use Rattle.type_instances.specs.Schemes.{AreAmong};
ghost use Rattle.general_types.specs.Texts.{OpenMore, OpensDef, OpensOne, def_terms};
ghost use Rattle.general_types.specs.Numbering.{AreNumbered, AreSettled, IsFront, IsNumbered, place_of};

use indexmap::IndexSet;
use liq_base::Memory;
use std::alloc::Global;
use type_terms::{KindTerm, Subst, Ty, resolved};

/// How many levels a type may have whose variables are numbered anew.
const MOST_LEVELS: u32 = 1000;

/// The types of a def over variables of their own, and how many kind variables its text names.
#[derive(Drop)]
pub struct OpenedDef {
    pub params: Vec<Ty>,
    pub answer: Ty,
    pub read: usize,
}

/// Numbers the variables of a def's types anew in the order of first mention: those in the kinds of its text first,
/// then those in `params` and `answer`.
///
/// A variable's new number is the place of its old one in `types` or, for a kind, in `places`. `text` gets the given
/// `kinds` so numbered. All three are empty at first. `read` of the answer is how many kind variables the text names.
pub fn number_def(
    alloc: Global,
    subst: &Subst,
    types: &mut IndexSet<u64>,
    places: &mut IndexSet<u64>,
    text: &mut Vec<KindTerm>,
    params: &[Ty],
    answer: &Ty,
    kinds: &[KindTerm],
) -> Result<OpenedDef, Memory>
    requires params { AreAmong (length subst.now.types) (length subst.now.kinds) (map term_of params.now) }
    requires answer { IsOver subst.now (term_of answer.now) }
    requires kinds { AreAmong (length subst.now.types) (length subst.now.kinds) (map source_term kinds.now) }
    requires places { length places.old.keys ≡ 0 }
    requires text { text.old.items ≡ [] }
    ensures { IfOk result (λ o. OpensDef subst.now (def_terms params.now answer.now kinds.now) types.new.keys
        places.new.keys o.read (def_terms o.params.items o.answer text.new.items)) }
{
    push_opened_kinds(alloc, text, subst, places, kinds)?;
    let read = places.len();
    let params = opened(alloc, subst, types, places, params)?;
    let answer = opened_one(alloc, subst, types, places, answer)?;
    Ok(OpenedDef {
        params,
        answer,
        read,
    })
}

/// The place of a variable in a set of numbers, which it joins at the end if it is not there.
fn place(numbers: &mut IndexSet<u64>, number: u64) -> Result<u64, Memory>
    ensures there { IfOk result (λ i. slice_get numbers.new.keys i ≡ Some number) }
    ensures front { OnOk result (IsFront numbers.old.keys numbers.new.keys) }
    ensures next { IfOk result (λ i. numbered_on (length numbers.old.keys) (i ∷ []) ≡ Some (length numbers.new.keys)) }
{
    let (place, _) = numbers.insert_full(number)?;
    Ok(place as u64)
}

/// A kind with its variable replaced by the place of that in the set, which it joins at the end if it is not there. A
/// fixed kind, mono or stereo, stays.
fn kind_place(kinds: &mut IndexSet<u64>, kind: KindTerm) -> Result<KindTerm, Memory>
    ensures numbered { IfOk result (λ k. (ts : List ℕ)
        → IsNumbered ts kinds.old.keys ts kinds.new.keys (source_term kind) (source_term k)) }
    ensures next { IfOk result (λ k. numbered_on (length kinds.old.keys) (place_of k) ≡ Some (length kinds.new.keys)) }
{
    match kind {
        KindTerm::Fixed(fixed) => Ok(KindTerm::Fixed(fixed)),
        KindTerm::Var(number) => {
            let place = place(kinds, number)?;
            Ok(KindTerm::Var(place))
        }
    }
}

/// A type with each variable replaced by its place in the sets `types` and `kinds`, which it joins if it is not
/// there. Each list or tuple within takes one of `levels`, which bound how deep the calls go. Where they do not
/// suffice, memory is told as refused.
#[cycle(numbering)]
fn numbered(
    alloc: Global,
    types: &mut IndexSet<u64>,
    kinds: &mut IndexSet<u64>,
    ty: &Ty,
    levels: u32,
) -> Result<Ty, Memory>
    ensures { IfOk result (λ u. IsNumbered types.old.keys kinds.old.keys types.new.keys kinds.new.keys (term_of ty.now)
        (term_of u)) }
{
    let below = levels.checked_sub(1).ok_or(Memory)?;
    match ty {
        Ty::Int => Ok(Ty::Int),
        Ty::Decimal => Ok(Ty::Decimal),
        Ty::Text => Ok(Ty::Text),
        Ty::Bool => Ok(Ty::Bool),
        Ty::Unit => Ok(Ty::Unit),
        Ty::Format => Ok(Ty::Format),
        Ty::Pred => Ok(Ty::Pred),
        Ty::Source(kind) => {
            let kind = kind_place(kinds, *kind)?;
            Ok(Ty::Source(kind))
        }
        Ty::Var(number) => {
            let place = place(types, *number)?;
            Ok(Ty::Var(place))
        }
        Ty::List(item) => {
            let item = numbered(alloc, types, kinds, item, below)?;
            let item = Box::new(alloc, item)?;
            Ok(Ty::List(item))
        }
        Ty::Tuple(parts) => {
            let parts = all_numbered(alloc, types, kinds, parts, below)?;
            Ok(Ty::Tuple(parts))
        }
    }
}

/// Types with each variable replaced by its place in the sets `types` and `kinds`, which it joins if it is not there.
/// Where a type nests more than `levels` levels deep, memory is told as refused.
#[cycle(numbering)]
fn all_numbered(
    alloc: Global,
    types: &mut IndexSet<u64>,
    kinds: &mut IndexSet<u64>,
    tys: &[Ty],
    levels: u32,
) -> Result<Vec<Ty>, Memory>
    ensures { IfOk result (λ us. AreNumbered types.old.keys kinds.old.keys types.new.keys kinds.new.keys
        (map term_of tys.now) (map term_of us.items)) }
{
    let mut places = Vec::with_capacity(alloc, tys.len())?;
    for ty in tys {
        let next = numbered(alloc, types, kinds, ty, levels)?;
        places.push(next)?;
    }
    Ok(places)
}

/// Types with each bound variable replaced by what it is bound to, so that free ones alone are left.
fn all_resolved(alloc: Global, subst: &Subst, tys: &[Ty]) -> Result<Vec<Ty>, Memory>
    requires over { AreAmong (length subst.now.types) (length subst.now.kinds) (map term_of tys.now) }
    ensures { IfOk result (λ us. AreSettled subst.now (map term_of tys.now) (map term_of us.items)) }
{
    let mut settled = Vec::with_capacity(alloc, tys.len())?;
    for ty in tys {
        let next = resolved(alloc, subst, ty)?;
        settled.push(next)?;
    }
    Ok(settled)
}

/// For each kind the type of a source of that kind, so that kinds can be resolved and numbered as types are.
fn sources(alloc: Global, kinds: &[KindTerm]) -> Result<Vec<Ty>, Memory>
    ensures { IfOk result (λ us. map term_of us.items ≡ map source_term kinds.now) }
{
    let mut types = Vec::with_capacity(alloc, kinds.len())?;
    for kind in kinds {
        types.push(Ty::Source(*kind))?;
    }
    Ok(types)
}

/// Types in numbered form: bound variables are replaced by what they are bound to, and then each free one by its
/// place in the sets `types` and `kinds`, which it joins if it is not there.
fn opened(
    alloc: Global,
    subst: &Subst,
    types: &mut IndexSet<u64>,
    kinds: &mut IndexSet<u64>,
    tys: &[Ty],
) -> Result<Vec<Ty>, Memory>
    requires over { AreAmong (length subst.now.types) (length subst.now.kinds) (map term_of tys.now) }
    ensures { IfOk result (λ us. OpenMore subst.now types.old.keys kinds.old.keys types.new.keys kinds.new.keys
        (map term_of tys.now) (map term_of us.items)) }
{
    let settled = all_resolved(alloc, subst, tys)?;
    all_numbered(alloc, types, kinds, &settled, MOST_LEVELS)
}

/// A type in numbered form: bound variables are replaced by what they are bound to, and then each free one by its
/// place in the sets `types` and `kinds`, which it joins if it is not there.
fn opened_one(
    alloc: Global,
    subst: &Subst,
    types: &mut IndexSet<u64>,
    kinds: &mut IndexSet<u64>,
    ty: &Ty,
) -> Result<Ty, Memory>
    requires over { IsOver subst.now (term_of ty.now) }
    ensures { IfOk result (λ u. OpensOne subst.now types.old.keys kinds.old.keys types.new.keys kinds.new.keys
        (term_of ty.now) (term_of u)) }
{
    let settled = resolved(alloc, subst, ty)?;
    numbered(alloc, types, kinds, &settled, MOST_LEVELS)
}

/// Adds the kinds of these sources to an empty list, each variable replaced by its place in the set `kinds`. New
/// places come in the order of first mention. A type that is no source, which no caller gives, is told as want of
/// memory.
fn push_places(
    places: &mut Vec<KindTerm>,
    kinds: &mut IndexSet<u64>,
    sources: &[Ty],
) -> Result<(), Memory>
    requires { places.old.items ≡ [] }
    ensures numbered { OnOk result ((ts : List ℕ)
        → AreNumbered ts kinds.old.keys ts kinds.new.keys (map term_of sources.now)
        (map source_term places.new.items)) }
    ensures next { OnOk result (numbered_on (length kinds.old.keys) (flat_map place_of places.new.items)
        ≡ Some (length kinds.new.keys)) }
{
    for source in sources {
        match source {
            Ty::Source(kind) => {
                let place = kind_place(kinds, *kind)?;
                places.push(place)?;
            }
            // No other types are given.
            _ => return Err(Memory),
        }
    }
    Ok(())
}

/// Adds the kinds `given` to the empty list `places` in numbered form: bound variables are replaced by what they are
/// bound to, and then each free one by its place in the set `kinds`. They are made types of sources for this, since
/// types are what is resolved.
fn push_opened_kinds(
    alloc: Global,
    places: &mut Vec<KindTerm>,
    subst: &Subst,
    kinds: &mut IndexSet<u64>,
    given: &[KindTerm],
) -> Result<(), Memory>
    requires over { AreAmong (length subst.now.types) (length subst.now.kinds) (map source_term given.now) }
    requires none { places.old.items ≡ [] }
    ensures opened { OnOk result ((ts : List ℕ)
        → OpenMore subst.now ts kinds.old.keys ts kinds.new.keys (map source_term given.now)
        (map source_term places.new.items)) }
    ensures next { OnOk result (numbered_on (length kinds.old.keys) (flat_map place_of places.new.items)
        ≡ Some (length kinds.new.keys)) }
{
    let given = sources(alloc, given)?;
    let settled = all_resolved(alloc, subst, &given)?;
    push_places(places, kinds, &settled)?;
    Ok(())
}
