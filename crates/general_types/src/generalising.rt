// The general type of a def.
ghost use Rattle.std.specs.Prelude.{◌≡◌, ◌++◌, ◌∷◌, ◌<◌, ◌≤◌, List, [], length, map, take, IfOk, OnOk};
ghost use Rattle.type_terms.specs.Table.{IsOver};
ghost use Rattle.type_terms.specs.Term.{Term, source_term, term_of};
ghost use Rattle.type_instances.specs.Schemes.{AreAmong, IsSchemeOver, open_numbers, scheme_of};
ghost use Rattle.general_types.specs.Generals.{AreTextKindsOver, IsGeneral, IsNumberedText};
ghost use Rattle.general_types.specs.Holding.{IsHeldBy};
ghost use Rattle.general_types.specs.Numbering.{kind_parameter, kind_parameters as the_kind_parameters, type_parameter};
ghost use Rattle.general_types.specs.Texts.{open_counts, text_kind as the_text_kind};

use crate::holding::Held;
use crate::numbering::number_def;
use indexmap::IndexSet;
use liq_base::Memory;
use std::alloc::Global;
use type_instances::{General, KindParameter, TypeParameter};
use type_terms::{KindTerm, Subst, Ty};

/// A kind in the text of a def: one from outside, or an open kind of the def, by its place among them.
#[derive(Clone, Copy, Debug, PartialEq, Eq)]
pub enum TextKind {
    Outer(KindTerm),
    Open(u64),
}

/// What a def is to its calls: its general type, and the kinds at the uses of its text, in their order.
///
/// The open kinds are those that the text names, and are numbered in the order in which it names them first.
#[derive(Debug, Drop)]
pub struct DefType {
    pub general: General,
    pub text: Vec<TextKind>,
}

/// Makes the types of a def general in all variables that are bound to nothing and that no earlier name holds.
///
/// `params` and `answer` are the found types of its parameters and its result. `kinds` are the kinds (mono, stereo or
/// a variable) at the uses of names in its text, use by use. The time grows with these alone, once all that is bound
/// is put in.
pub fn generalise(
    alloc: Global,
    subst: &Subst,
    held: &Held,
    params: &[Ty],
    answer: &Ty,
    kinds: &[KindTerm],
) -> Result<DefType, Memory>
    requires params { AreAmong (length subst.now.types) (length subst.now.kinds) (map term_of params.now) }
    requires answer { IsOver subst.now (term_of answer.now) }
    requires kinds { AreAmong (length subst.now.types) (length subst.now.kinds) (map source_term kinds.now) }
    ensures over { IfOk result (λ d. (names : List Term) → IsHeldBy subst.now names held.now
        → IsSchemeOver subst.now (scheme_of d.general)) }
    ensures numbered { IfOk result (λ d. IsNumberedText (scheme_of d.general) d.text.items) }
    ensures text_over { IfOk result (λ d. (names : List Term) → IsHeldBy subst.now names held.now
        → AreTextKindsOver subst.now d.text.items) }
    ensures general { IfOk result (λ d. (names : List Term) → IsHeldBy subst.now names held.now
        → IsGeneral subst.now names (map term_of params.now) (term_of answer.now) kinds.now (scheme_of d.general)
        d.text.items) }
{
    let mut type_numbers = IndexSet::new(alloc);
    let mut kind_numbers = IndexSet::new(alloc);
    generalise_with(
        alloc,
        subst,
        held,
        &mut type_numbers,
        &mut kind_numbers,
        params,
        answer,
        kinds,
    )
}

/// Makes the types of a def general, for `generalise`. `kinds` are the kinds (mono, stereo or a variable) at the uses
/// of names in its text. The two sets are empty at first, and get the numbers that the def's variables have in
/// `subst`. In the general type a variable is its place in its set; in `text` an open kind is its number among the
/// open ones.
fn generalise_with(
    alloc: Global,
    subst: &Subst,
    held: &Held,
    type_numbers: &mut IndexSet<u64>,
    kind_numbers: &mut IndexSet<u64>,
    params: &[Ty],
    answer: &Ty,
    kinds: &[KindTerm],
) -> Result<DefType, Memory>
    requires params { AreAmong (length subst.now.types) (length subst.now.kinds) (map term_of params.now) }
    requires answer { IsOver subst.now (term_of answer.now) }
    requires kinds { AreAmong (length subst.now.types) (length subst.now.kinds) (map source_term kinds.now) }
    requires kind_numbers { length kind_numbers.old.keys ≡ 0 }
    ensures over { IfOk result (λ d. (names : List Term) → IsHeldBy subst.now names held.now
        → IsSchemeOver subst.now (scheme_of d.general)) }
    ensures numbered { IfOk result (λ d. IsNumberedText (scheme_of d.general) d.text.items) }
    ensures text_over { IfOk result (λ d. (names : List Term) → IsHeldBy subst.now names held.now
        → AreTextKindsOver subst.now d.text.items) }
    ensures general { IfOk result (λ d. (names : List Term) → IsHeldBy subst.now names held.now
        → IsGeneral subst.now names (map term_of params.now) (term_of answer.now) kinds.now (scheme_of d.general)
        d.text.items) }
{
    subst.extends_each_assignment();
    let mut named = Vec::new(alloc);
    let opened = number_def(
        alloc,
        subst,
        type_numbers,
        kind_numbers,
        &mut named,
        params,
        answer,
        kinds,
    )?;
    let mut types = Vec::new(alloc);
    let mut kinds = Vec::new(alloc);
    let mut text = Vec::new(alloc);
    say_parameters(
        alloc,
        subst,
        held,
        type_numbers.as_slice(),
        kind_numbers.as_slice(),
        opened.read,
        &named,
        &mut types,
        &mut kinds,
        &mut text,
    )?;
    Ok(DefType {
        general: General {
            params: opened.params,
            result: opened.answer,
            types,
            kinds,
        },
        text,
    })
}

/// Fills three empty lists for a def's general type: `types` and `kinds` say what each of its variables may stand
/// for, and `text` has the kinds `named` at the uses of its text. In `named` a variable is its place in
/// `kind_numbers`. The text names the first `read` of these.
fn say_parameters(
    alloc: Global,
    subst: &Subst,
    held: &Held,
    type_numbers: &[u64],
    kind_numbers: &[u64],
    read: usize,
    named: &[KindTerm],
    types: &mut Vec<TypeParameter>,
    kinds: &mut Vec<KindParameter>,
    text: &mut Vec<TextKind>,
) -> Result<(), Memory>
    requires within { read ≤ length kind_numbers.now }
    requires types { types.old.items ≡ [] }
    requires kinds { kinds.old.items ≡ [] }
    requires text { text.old.items ≡ [] }
    ensures types { OnOk result (types.new.items ≡ map (type_parameter subst.now held.now) type_numbers.now) }
    ensures kinds { OnOk result (kinds.new.items ≡ the_kind_parameters held.now read kind_numbers.now) }
    ensures text { OnOk result (text.new.items ≡ map (the_text_kind kinds.new.items) named.now) }
{
    push_types(types, subst, held, type_numbers)?;
    push_kinds(kinds, held, kind_numbers, read)?;
    push_text(alloc, text, kinds.as_slice(), named)?;
    Ok(())
}

/// What the type variable of this number may stand for in a def's general type: itself if an earlier name holds it,
/// any number type if it is one, and otherwise any type.
fn type_parameter_of(subst: &Subst, held: &Held, number: u64) -> TypeParameter
    ensures { result ≡ type_parameter subst.now held.now number }
{
    if held.holds_type(number) {
        TypeParameter::Outer(number)
    } else if subst.is_number(number) {
        TypeParameter::Number
    } else {
        TypeParameter::Any
    }
}

/// Adds, to an empty list, what each of these type variables may stand for in a general type.
fn push_types(
    parameters: &mut Vec<TypeParameter>,
    subst: &Subst,
    held: &Held,
    numbers: &[u64],
) -> Result<(), Memory>
    requires { parameters.old.items ≡ [] }
    ensures { OnOk result (parameters.new.items ≡ map (type_parameter subst.now held.now) numbers.now) }
{
    for number in numbers {
        parameters.push(type_parameter_of(subst, held, *number))?;
    }
    Ok(())
}

/// What the kind variable of this number may stand for in a def's general type: itself if an earlier name holds it,
/// and otherwise `free`, which is `Open` or `Unread`.
fn kind_parameter_of(held: &Held, free: KindParameter, number: u64) -> KindParameter
    ensures { result ≡ kind_parameter held.now free number }
{
    if held.holds_kind(number) {
        KindParameter::Outer(number)
    } else {
        free
    }
}

/// Adds what each of these kind variables may stand for in a general type; `free` for each that no earlier name
/// holds.
fn push_parameters(
    parameters: &mut Vec<KindParameter>,
    held: &Held,
    free: KindParameter,
    numbers: &[u64],
) -> Result<(), Memory>
    ensures { OnOk result (parameters.new.items ≡ parameters.old.items
        ++ map (kind_parameter held.now free) numbers.now) }
{
    for number in numbers {
        parameters.push(kind_parameter_of(held, free, *number))?;
    }
    Ok(())
}

/// Adds, to an empty list, what each of these kind variables may stand for in a def's general type. Of those that no
/// earlier name holds, the first `read`, which the def's text names, become `Open`. The others, which its types alone
/// name, become `Unread`.
fn push_kinds(
    parameters: &mut Vec<KindParameter>,
    held: &Held,
    numbers: &[u64],
    read: usize,
) -> Result<(), Memory>
    requires within { read ≤ length numbers.now }
    requires none { parameters.old.items ≡ [] }
    ensures { OnOk result (parameters.new.items ≡ the_kind_parameters held.now read numbers.now) }
{
    let (named, others) = numbers.split_at(read);
    push_parameters(parameters, held, KindParameter::Open, named)?;
    push_parameters(parameters, held, KindParameter::Unread, others)?;
    Ok(())
}

/// How many open kinds a kind parameter is: 1 if it is open, else 0.
fn one_if_open(parameter: KindParameter) -> u64
    ensures open { result ≡ length (open_numbers 0 (parameter ∷ [])) }
    ensures few { result ≤ 1 }
{
    match parameter {
        KindParameter::Open => 1,
        KindParameter::Unread => 0,
        KindParameter::Outer(_) => 0,
    }
}

/// Adds, to an empty list, how many open kind parameters stand before each of these.
fn push_open_counts(counts: &mut Vec<u64>, parameters: &[KindParameter]) -> Result<(), Memory>
    requires { counts.old.items ≡ [] }
    ensures { OnOk result (counts.new.items ≡ open_counts 0 parameters.now) }
{
    let mut count: u64 = 0;
    for parameter in parameters {
        counts.push(count)?;
        let one = one_if_open(*parameter);
        count += one;
    }
    Ok(())
}

/// How many open kind parameters stand before the one of this number. `counts` has the answer for each of
/// `parameters`, which the contract alone needs.
fn open_before(parameters: &[KindParameter], counts: &[u64], number: u64) -> u64
    requires counts { counts.now ≡ open_counts 0 parameters.now }
    requires inside { number < length parameters.now }
    ensures { result ≡ length (open_numbers 0 (take number parameters.now)) }
{
    let _ = parameters;
    counts[number as usize]
}

/// A kind (mono, stereo or a variable) at a use in a def's text, as the general type keeps it. A variable is a place
/// in `parameters`: an open one becomes `Open`, with the count of open ones before it, from `counts`. All else is
/// `Outer`: a fixed kind, or a variable that an earlier name holds. A text names no `Unread` one, so what becomes of
/// it is of no matter.
fn text_kind(parameters: &[KindParameter], counts: &[u64], kind: KindTerm) -> TextKind
    requires { counts.now ≡ open_counts 0 parameters.now }
    ensures { result ≡ the_text_kind parameters.now kind }
{
    let KindTerm::Var(number) = kind else {
        return TextKind::Outer(kind);
    };
    match parameters.get(number as usize) {
        Some(KindParameter::Outer(outer)) => TextKind::Outer(KindTerm::Var(*outer)),
        Some(KindParameter::Open) => TextKind::Open(open_before(parameters, counts, number)),
        // A text names no others.
        Some(KindParameter::Unread) => TextKind::Outer(kind),
        None => TextKind::Outer(kind),
    }
}

/// Adds, to an empty list, the kinds at the uses of a def's text as its general type keeps them. A variable in
/// `kinds` is a place in `parameters`. An open one becomes its number among the open ones.
fn push_text(
    alloc: Global,
    text: &mut Vec<TextKind>,
    parameters: &[KindParameter],
    kinds: &[KindTerm],
) -> Result<(), Memory>
    requires { text.old.items ≡ [] }
    ensures { OnOk result (text.new.items ≡ map (the_text_kind parameters.now) kinds.now) }
{
    let mut counts = Vec::new(alloc);
    push_open_counts(&mut counts, parameters)?;
    for kind in kinds {
        text.push(text_kind(parameters, &counts, *kind))?;
    }
    Ok(())
}
