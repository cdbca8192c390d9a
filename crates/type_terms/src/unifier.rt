// The bindings that make two types equal, and their undoing.
ghost use Rattle.std.specs.Prelude.{◌≡◌, [], IfOk, OnErr};
ghost use Rattle.std.specs.Bool.{OnFalse};
ghost use Rattle.type_terms.specs.Agenda.{IsTaken, agenda_of, empty_agenda};
ghost use Rattle.type_terms.specs.Bound.{table_of};
ghost use Rattle.type_terms.specs.Counting.{free_count};
ghost use Rattle.type_terms.specs.Direct.{IsDirect};
ghost use Rattle.type_terms.specs.Narrowed.{AreComparable, IsAnswer, IsTrailed, Narrows, Tells};
ghost use Rattle.type_terms.specs.Table.{Table};
ghost use Rattle.type_terms.specs.Term.{term_of};

use crate::agenda::Agenda;
use crate::differ::{Difference, differ, differ_directly, push_copies, push_split};
use crate::naming::{copy, spend};
use crate::occurs::MOST_STEPS;
use crate::table::{Bindings, free_kinds, free_types};
use crate::ty::Ty;
use liq_base::Memory;
use std::alloc::Global;

/// Which variables were bound, each once.
#[derive(Drop)]
struct Trail {
    types: Vec<u64>,
    kinds: Vec<u64>,
}

impl Trail {
    /// A trail of no variables: none was bound yet.
    fn new(alloc: Global) -> Trail
        ensures types { result.types.items ≡ [] }
        ensures kinds { result.kinds.items ≡ [] }
    {
        Trail {
            types: Vec::new(alloc),
            kinds: Vec::new(alloc),
        }
    }
}

/// What became of two types that were to be the same: they are, they cannot be, or they are to be taken apart.
#[derive(Drop)]
pub enum Direct {
    Same,
    Clash,
    Apart,
}

/// Binds variables until the two types are the same (`true`); where they cannot be (`false`) or memory runs out,
/// nothing is bound. `free` counts the variables that are bound to nothing.
///
/// What one binding settles takes no memory but that of a copy of what is bound.
pub fn unify_in(
    alloc: Global,
    bindings: &mut Bindings,
    free: &mut usize,
    left: &Ty,
    right: &Ty,
) -> Result<bool, Memory>
    requires comparable { AreComparable bindings.old (term_of left.now) (term_of right.now) }
    requires counted { free.old ≡ free_count (table_of bindings.old) }
    ensures narrowed { Narrows (term_of left.now) (term_of right.now) bindings.old bindings.new }
    ensures answer { IfOk result (IsAnswer (table_of bindings.new) (term_of left.now) (term_of right.now)) }
    ensures unchanged { IfOk result (λ yes. OnFalse yes (table_of bindings.new ≡ table_of bindings.old)) }
    ensures counted { free.new ≡ free_count (table_of bindings.new) }
    ensures err { OnErr result (table_of bindings.new ≡ table_of bindings.old) }
{
    match unify_directly(alloc, bindings, free, left, right)? {
        Direct::Same => Ok(true),
        Direct::Clash => Ok(false),
        Direct::Apart => unify_deeply(alloc, bindings, free, left, right),
    }
}

/// Makes two types the same where neither is to be taken apart: with one binding, or none. `Apart` is answered where
/// they are two lists, or two tuples of one length; then, and for `Clash`, nothing is bound. `free` counts the
/// variables that are bound to nothing.
fn unify_directly(
    alloc: Global,
    bindings: &mut Bindings,
    free: &mut usize,
    left: &Ty,
    right: &Ty,
) -> Result<Direct, Memory>
    requires comparable { AreComparable bindings.old (term_of left.now) (term_of right.now) }
    requires counted { free.old ≡ free_count (table_of bindings.old) }
    ensures narrowed { Narrows (term_of left.now) (term_of right.now) bindings.old bindings.new }
    ensures direct { IfOk result
        (IsDirect (table_of bindings.old) (table_of bindings.new) (term_of left.now) (term_of right.now)) }
    ensures counted { free.new ≡ free_count (table_of bindings.new) }
    ensures err { OnErr result (table_of bindings.new ≡ table_of bindings.old) }
{
    let Some(found) = differ_directly(alloc, bindings, left, right)? else {
        return Ok(Direct::Apart);
    };
    match found {
        Difference::Same => Ok(Direct::Same),
        Difference::Clash => Ok(Direct::Clash),
        Difference::Bind(x, t) => {
            let t = copy(alloc, t)?;
            spend(&mut bindings.left, &t)?;
            bindings.bind_type(x, t);
            *free -= 1;
            Ok(Direct::Same)
        }
        Difference::BindKind(x, k) => {
            bindings.bind_kind(x, k);
            *free -= 1;
            Ok(Direct::Same)
        }
    }
}

/// Binds variables until the two types are the same (`true`); what was bound is freed again where they cannot be
/// (`false`) or memory runs out. `free` counts the variables that are bound to nothing.
fn unify_deeply(
    alloc: Global,
    bindings: &mut Bindings,
    free: &mut usize,
    left: &Ty,
    right: &Ty,
) -> Result<bool, Memory>
    requires comparable { AreComparable bindings.old (term_of left.now) (term_of right.now) }
    requires counted { free.old ≡ free_count (table_of bindings.old) }
    ensures narrowed { Narrows (term_of left.now) (term_of right.now) bindings.old bindings.new }
    ensures answer { IfOk result (IsAnswer (table_of bindings.new) (term_of left.now) (term_of right.now)) }
    ensures unchanged { IfOk result (λ yes. OnFalse yes (table_of bindings.new ≡ table_of bindings.old)) }
    ensures counted { free.new ≡ free_count (table_of bindings.new) }
    ensures err { OnErr result (table_of bindings.new ≡ table_of bindings.old) }
{
    let mut trail = Trail::new(alloc);
    match solve(alloc, bindings, &mut trail, left, right) {
        Ok(true) => {
            *free -= trail.types.len();
            *free -= trail.kinds.len();
            Ok(true)
        }
        Ok(false) => {
            undo(bindings, &trail);
            Ok(false)
        }
        Err(e) => {
            undo(bindings, &trail);
            Err(e)
        }
    }
}

/// Takes the bindings of the trail's variables away again, after two types turned out not to be equal or memory ran
/// out. The marks of nested variables stay, which costs only a search more.
fn undo(bindings: &mut Bindings, trail: &Trail)
    requires { (s : Table) × Tells trail.now s (table_of bindings.old) }
    ensures undone { (s : Table) → Tells trail.now s (table_of bindings.old) → table_of bindings.new ≡ s }
    ensures same_marks { bindings.new.nested.items ≡ bindings.old.nested.items }
{
    free_types(&mut bindings.types, &trail.types);
    free_kinds(&mut bindings.kinds, &trail.kinds);
}

/// Counts `left`, how many nodes of types may still be built or compared, down by the nodes of the types in the pairs
/// from number `first` on. Where too few are left, it fails as if memory had run out.
fn spend_behind(left: &mut u64, pairs: &[(Ty, Ty)], first: usize) -> Result<(), Memory> {
    for i in first..pairs.len() {
        spend(left, &pairs[i].0)?;
        spend(left, &pairs[i].1)?;
    }
    Ok(())
}

/// One step of unification, for one pair of types: binds the variable that has to be bound, and notes it in the trail,
/// or puts what the two are bound to on the agenda, the pairs still to compare. `false` where they cannot be made
/// equal. `bindings.left` counts the nodes that may still be copied.
fn take_up(
    alloc: Global,
    bindings: &mut Bindings,
    trail: &mut Trail,
    agenda: &mut Agenda,
    left: &Ty,
    right: &Ty,
) -> Result<bool, Memory>
    requires { AreComparable bindings.old (term_of left.now) (term_of right.now) }
    ensures narrowed { Narrows (term_of left.now) (term_of right.now) bindings.old bindings.new }
    ensures trailed { IsTrailed (table_of bindings.old) (table_of bindings.new) trail.old trail.new }
    ensures taken { IfOk result
        (IsTaken (table_of bindings.new) (agenda_of agenda.old) (agenda_of agenda.new) (term_of left.now)
        (term_of right.now)) }
{
    let first = agenda.work.len();
    match differ(alloc, bindings, agenda, left, right)? {
        Difference::Same => {
            spend_behind(&mut bindings.left, &agenda.work, first)?;
            Ok(true)
        }
        Difference::Clash => Ok(false),
        Difference::Bind(x, t) => {
            let t = copy(alloc, t)?;
            spend(&mut bindings.left, &t)?;
            trail.types.push(x)?;
            bindings.bind_type(x, t);
            Ok(true)
        }
        Difference::BindKind(x, k) => {
            trail.kinds.push(x)?;
            bindings.bind_kind(x, k);
            Ok(true)
        }
    }
}

/// Takes two types apart, with a stack of references, and takes up the pairs of parts that are not both lists or both
/// tuples of one length: binds a variable for each, or puts it on the agenda. `false` where a pair cannot be made
/// equal. Past `MOST_STEPS` pairs it fails as if memory had run out.
fn take_apart(
    alloc: Global,
    bindings: &mut Bindings,
    trail: &mut Trail,
    agenda: &mut Agenda,
    left: &Ty,
    right: &Ty,
) -> Result<bool, Memory>
    requires { AreComparable bindings.old (term_of left.now) (term_of right.now) }
    ensures narrowed { Narrows (term_of left.now) (term_of right.now) bindings.old bindings.new }
    ensures trailed { IsTrailed (table_of bindings.old) (table_of bindings.new) trail.old trail.new }
    ensures taken { IfOk result
        (IsTaken (table_of bindings.new) (agenda_of agenda.old) (agenda_of agenda.new) (term_of left.now)
        (term_of right.now)) }
{
    let mut parts: Vec<(&Ty, &Ty)> = Vec::new(alloc);
    parts.push((left, right))?;
    for _step in 0..MOST_STEPS {
        let Some(next) = parts.pop() else {
            return Ok(true);
        };
        if push_split(&mut parts, next.0, next.1)? {
            continue;
        }
        if !take_up(alloc, bindings, trail, agenda, next.0, next.1)? {
            return Ok(false);
        }
    }
    Err(Memory)
}

/// Binds variables until the two types are the same (`true`), or differ in shape (`false`). The trail tells which were
/// bound, for the caller to free them.
///
/// What variables are bound to and is still to be compared stands on the agenda. Two variables are taken apart once.
fn solve(
    alloc: Global,
    bindings: &mut Bindings,
    trail: &mut Trail,
    left: &Ty,
    right: &Ty,
) -> Result<bool, Memory>
    requires { AreComparable bindings.old (term_of left.now) (term_of right.now) }
    ensures narrowed { Narrows (term_of left.now) (term_of right.now) bindings.old bindings.new }
    ensures trailed { IsTrailed (table_of bindings.old) (table_of bindings.new) trail.old trail.new }
    ensures answer { IfOk result (IsAnswer (table_of bindings.new) (term_of left.now) (term_of right.now)) }
{
    let mut agenda = Agenda::new(alloc);
    compare(alloc, bindings, trail, &mut agenda, left, right)
}

/// Binds variables until the two types are the same, by taking pairs from the agenda, on which nothing stands at
/// first; `false` where they cannot be made equal. The trail tells which variables were bound.
fn compare(
    alloc: Global,
    bindings: &mut Bindings,
    trail: &mut Trail,
    agenda: &mut Agenda,
    left: &Ty,
    right: &Ty,
) -> Result<bool, Memory>
    requires comparable { AreComparable bindings.old (term_of left.now) (term_of right.now) }
    requires empty { agenda_of agenda.old ≡ empty_agenda }
    ensures narrowed { Narrows (term_of left.now) (term_of right.now) bindings.old bindings.new }
    ensures trailed { IsTrailed (table_of bindings.old) (table_of bindings.new) trail.old trail.new }
    ensures answer { IfOk result (IsAnswer (table_of bindings.new) (term_of left.now) (term_of right.now)) }
{
    push_copies(alloc, &mut agenda.work, left, right)?;
    spend(&mut bindings.left, left)?;
    spend(&mut bindings.left, right)?;
    for _step in 0..MOST_STEPS {
        let Some(next) = agenda.work.pop() else {
            return Ok(true);
        };
        if !take_apart(alloc, bindings, trail, agenda, &next.0, &next.1)? {
            return Ok(false);
        }
    }
    Err(Memory)
}
