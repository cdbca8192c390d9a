// The uses of a script that has a typing, or its first fault.
ghost use Rattle.std.specs.Prelude.{◌≡◌, ◌≢◌, ◌<◌, ◌≤◌, map, Some, IfErr, IfOk, OnOk};
ghost use Rattle.name_scope.specs.Noted.{resolved};
ghost use Rattle.script_grammar.specs.Placed.{IsPlaced};
ghost use Rattle.script_grammar.specs.Tree.{none};
ghost use Rattle.script_grammar.specs.View.{listed, view_part, view_script, view_stmt};
ghost use Rattle.typing_rules.specs.Answers.{IsTypeFault, IsTyped};
ghost use Rattle.typing_rules.specs.Scoping.{target_in};
ghost use Rattle.typing_rules.specs.Scripts.{Targets, first_of};
ghost use Rattle.type_infer.specs.Clashes.{IsClashIn};
ghost use Rattle.type_infer.specs.Fronts.{IsFront};
ghost use Rattle.type_infer.specs.Settling.{AreDonesOver};
ghost use Rattle.type_infer.specs.States.{AreDefaultUses, IsAfter, IsReady, IsSameTyping, IsStepped, IsTypedSo, dones};
ghost use Rattle.type_infer.specs.Turns.{IsTurned};
ghost use Rattle.expression_types.specs.Tables.{targets_of};

use crate::front::{Front, resolve_front};
use crate::settling::settled_uses;
use crate::statements::type_part;
use crate::steps::Typing;
use expression_types::{Bindings, Defs, target_table};
use general_types::Held;
use liq_base::{Memory, TokenTable};
use name_scope::Resolved;
use script_grammar::tree::{Script, Stmt, StmtPart};
use std::alloc::Global;
use type_terms::Subst;
use typing_rules::{Target, TypeFault, Use};

/// The uses of a script that has a typing: one for each name in the order of the tokens, with what it means and its
/// kinds, mono exactly where every typing is (`docs/typing.md`). The fields `at` of the script are the indexes of its
/// tokens, as parsing answers it.
///
/// # Errors
///
/// The first fault of names, arguments or types. `Memory`: memory was refused, or there are 2^32 statements and more.
pub fn infer(alloc: Global, script: &Script) -> Result<Vec<Use>, TypeFault>
    requires placed { IsPlaced 0 (view_script script.now) }
    ensures typed { IfOk result (λ uses. IsTyped (view_script script.now) uses.items) }
    ensures fault { IfErr result (IsTypeFault (view_script script.now)) }
{
    statement_uses(alloc, &script.statements)
}

/// The state of typing before the first statement: nothing is bound, and the substitution, which is new, has no
/// variables. The call on it does nothing: it brings a law to the contract.
fn begun<'a>(alloc: Global, subst: Subst) -> Typing<'a>
    ensures { (targets : Targets) → IsAfter targets none result }
{
    subst.has_defaults();
    Typing {
        subst,
        before: Bindings::new(alloc),
        defs: Defs::new(alloc),
        held: Held::new(alloc),
        pending: Vec::new(alloc),
        steps: Vec::new(alloc),
    }
}

/// The state of typing before the first statement, with a new substitution. It fails only where memory is refused.
fn start<'a>(alloc: Global) -> Result<Typing<'a>, TypeFault>
    ensures begun { IfOk result (λ t. (targets : Targets) → IsAfter targets none t) }
    ensures refused { IfErr result (λ f. f ≡ TypeFault.Memory) }
{
    match Subst::new(alloc) {
        Ok(subst) => Ok(begun(alloc, subst)),
        Err(_) => Err(TypeFault::Memory),
    }
}

/// Makes room in the state of typing for what the statements leave, so that its lists rarely grow. Each statement
/// leaves one step and binds at most one name. It mostly needs a type variable, and each name that it uses another
/// one, and perhaps one for its kind.
fn make_room(typing: &mut Typing<'_>, front: &Front) -> Result<(), Memory>
    ensures { IsSameTyping typing.old typing.new }
{
    let names = front.all.len();
    typing
        .subst
        .reserve(front.count.saturating_add(names), names)?;
    typing.before.reserve(front.count)?;
    typing.pending.reserve(front.count)?;
    typing.steps.reserve(front.count)?;
    Ok(())
}

/// Types the first `front.count` statements, which have no fault of names. Answers the state of typing after them;
/// `Err` is the first clash of types among them, or want of memory, which 2^32 statements are told as too.
fn type_statements<'a>(
    alloc: Global,
    statements: &'a [Stmt],
    front: &Front,
) -> Result<Typing<'a>, TypeFault>
    requires front { IsFront (map view_stmt statements.now) front.now.count (map resolved front.now.all.items)
        front.now.fault }
    requires placed { IsPlaced 0 (listed (map view_stmt statements.now)) }
    ensures typed { IfOk result
        (λ t. IsTypedSo (target_in (map resolved front.now.all.items))
        (first_of front.now.count (listed (map view_stmt statements.entry.now))) t) }
    ensures clash { IfErr result
        (λ f. IsClashIn (target_in (map resolved front.now.all.items)) (listed (map view_stmt statements.entry.now))
        front.now.count f) }
{
    if front.count > u32::MAX as usize {
        return Err(TypeFault::Memory);
    }
    let targets = told_table(alloc, &front.all)?;
    type_with(alloc, &targets, statements, front)
}

/// Types the first `front.count` statements from a new state of typing, and answers the state after them. `Err` is
/// the first clash of types, or want of memory. `targets` says by its token what each name means.
fn type_with<'a>(
    alloc: Global,
    targets: &TokenTable<Target>,
    statements: &'a [Stmt],
    front: &Front,
) -> Result<Typing<'a>, TypeFault>
    requires front { IsFront (map view_stmt statements.now) front.now.count (map resolved front.now.all.items)
        front.now.fault }
    requires placed { IsPlaced 0 (listed (map view_stmt statements.now)) }
    requires table { targets_of targets.now ≡ target_in (map resolved front.now.all.items) }
    requires counted { front.now.count ≤ 4294967295 }
    ensures typed { IfOk result
        (λ t. IsTypedSo (target_in (map resolved front.now.all.items))
        (first_of front.now.count (listed (map view_stmt statements.entry.now))) t) }
    ensures clash { IfErr result
        (λ f. IsClashIn (target_in (map resolved front.now.all.items)) (listed (map view_stmt statements.entry.now))
        front.now.count f) }
{
    let mut typing = start(alloc)?;
    match type_all(alloc, &mut typing, targets, statements, front) {
        Ok(()) => Ok(typing),
        Err(fault) => Err(fault),
    }
}

/// Makes room for what the statements leave, and types the first `front.count` of them in turn. `Err` is the first
/// clash of types, or want of memory. `targets` says by its token what each name means.
fn type_all<'a>(
    alloc: Global,
    typing: &mut Typing<'a>,
    targets: &TokenTable<Target>,
    statements: &'a [Stmt],
    front: &Front,
) -> Result<(), TypeFault>
    requires front { IsFront (map view_stmt statements.now) front.now.count (map resolved front.now.all.items)
        front.now.fault }
    requires placed { IsPlaced 0 (listed (map view_stmt statements.now)) }
    requires table { targets_of targets.now ≡ target_in (map resolved front.now.all.items) }
    requires counted { front.now.count ≤ 4294967295 }
    requires begun { IsAfter (target_in (map resolved front.now.all.items)) none typing.old }
    ensures typed { OnOk result
        (IsTypedSo (target_in (map resolved front.now.all.items))
        (first_of front.now.count (listed (map view_stmt statements.entry.now))) typing.new) }
    ensures clash { IfErr result
        (λ f. IsClashIn (target_in (map resolved front.now.all.items)) (listed (map view_stmt statements.entry.now))
        front.now.count f) }
{
    if make_room(typing, front).is_err() {
        return Err(TypeFault::Memory);
    }
    type_each(alloc, typing, targets, statements, front)
}

/// Types the first `front.count` statements one after another. `Err` is the first clash of types, with the number of
/// its statement from 1, or want of memory.
fn type_each<'a>(
    alloc: Global,
    typing: &mut Typing<'a>,
    targets: &TokenTable<Target>,
    statements: &'a [Stmt],
    front: &Front,
) -> Result<(), TypeFault>
    requires front { IsFront (map view_stmt statements.now) front.now.count (map resolved front.now.all.items)
        front.now.fault }
    requires placed { IsPlaced 0 (listed (map view_stmt statements.now)) }
    requires table { targets_of targets.now ≡ target_in (map resolved front.now.all.items) }
    requires counted { front.now.count ≤ 4294967295 }
    requires begun { IsAfter (target_in (map resolved front.now.all.items)) none typing.old }
    ensures typed { OnOk result
        (IsTypedSo (target_in (map resolved front.now.all.items))
        (first_of front.now.count (listed (map view_stmt statements.entry.now))) typing.new) }
    ensures clash { IfErr result
        (λ f. IsClashIn (target_in (map resolved front.now.all.items)) (listed (map view_stmt statements.entry.now))
        front.now.count f) }
{
    for index in 0..front.count {
        let typed = type_next(alloc, typing, targets, statements, front, index)?;
        if !typed {
            return Err(TypeFault::TypeClash {
                stmt: index as u32 + 1,
            });
        }
    }
    Ok(())
}

/// The table that says by its token what each name means. Where memory is refused, `Err` is the fault `Memory` of the
/// script.
fn told_table(alloc: Global, names: &[Resolved]) -> Result<TokenTable<Target>, TypeFault>
    ensures table { IfOk result (λ m. targets_of m ≡ target_in (map resolved names.now)) }
    ensures refused { IfErr result (λ f. f ≡ TypeFault.Memory) }
{
    match target_table(alloc, names) {
        Ok(table) => Ok(table),
        Err(_) => Err(TypeFault::Memory),
    }
}

/// Types the statement at `index`, counted from 0, as the next one. False: it clashes with the statements before, as
/// no typing of them fits it. `targets` says by its token what each name means.
fn type_next<'a>(
    alloc: Global,
    typing: &mut Typing<'a>,
    targets: &TokenTable<Target>,
    statements: &'a [Stmt],
    front: &Front,
    index: usize,
) -> Result<bool, TypeFault>
    requires front { IsFront (map view_stmt statements.now) front.now.count (map resolved front.now.all.items)
        front.now.fault }
    requires placed { IsPlaced 0 (listed (map view_stmt statements.now)) }
    requires table { targets_of targets.now ≡ target_in (map resolved front.now.all.items) }
    requires inside { index < front.now.count }
    requires before { IsAfter (target_in (map resolved front.now.all.items))
        (first_of index (listed (map view_stmt statements.now))) typing.old }
    ensures turned { IfOk result
        (λ yes. IsTurned (target_in (map resolved front.now.all.items)) (listed (map view_stmt statements.entry.now))
        front.now.count index typing.new yes) }
    ensures refused { IfErr result (λ f. f ≡ TypeFault.Memory) }
{
    let part = &statements[index].part;
    let yes = next(alloc, typing, targets, part)?;
    Ok(yes)
}

/// Types this statement as the next one, and keeps what it leaves in `typing`. False: there is no typing of the
/// statements so far with it. Where memory is refused, `Err` is the fault `Memory` of the script.
fn next<'a>(
    alloc: Global,
    typing: &mut Typing<'a>,
    targets: &TokenTable<Target>,
    part: &'a StmtPart,
) -> Result<bool, TypeFault>
    requires ready { IsReady (targets_of targets.now) typing.old }
    ensures stepped { IfOk result
        (λ yes. IsStepped (targets_of targets.now) (view_part part.entry.now) typing.old typing.new yes) }
    ensures refused { IfErr result (λ f. f ≡ TypeFault.Memory) }
{
    match type_part(alloc, typing, targets, part) {
        Ok(yes) => Ok(yes),
        Err(_) => Err(TypeFault::Memory),
    }
}

/// Resolves the names of a script up to its first fault of names, and answers what they mean, in how many statements,
/// and that fault. `Err` alone is want of memory; a fault of names stands within the answer.
fn told_front(alloc: Global, statements: &[Stmt]) -> Result<Front, TypeFault>
    ensures front { IfOk result
        (λ f. IsFront (map view_stmt statements.now) f.count (map resolved f.all.items) f.fault) }
    ensures refused { IfErr result (λ f. f ≡ TypeFault.Memory) }
{
    match resolve_front(alloc, statements) {
        Ok(front) => Ok(front),
        Err(_) => Err(TypeFault::Memory),
    }
}

/// The end of typing: `fault`, the fault of names, if there is one. Otherwise it is the uses of the typed statements
/// with their final kinds, in a list with room for `room` uses at first.
fn uses_or_fault(
    alloc: Global,
    typing: Typing<'_>,
    fault: Option<TypeFault>,
    room: usize,
) -> Result<Vec<Use>, TypeFault>
    requires over { AreDonesOver typing.subst (dones typing) }
    ensures uses { IfOk result (λ us. AreDefaultUses typing.entry fault us.items) }
    ensures fault { IfErr result (λ f. f ≢ TypeFault.Memory → fault ≡ Some f) }
{
    typing.subst.has_defaults();
    match fault {
        Some(fault) => Err(fault),
        None => match settled_uses(alloc, typing, room) {
            Ok(uses) => Ok(uses),
            Err(_) => Err(TypeFault::Memory),
        },
    }
}

/// Types the statements of a script whose names are resolved, and answers their uses. `Err` is the first clash of
/// types, or else the fault of names. `front` has what the names mean, up to that fault.
fn answered(alloc: Global, statements: &[Stmt], front: Front) -> Result<Vec<Use>, TypeFault>
    requires front { IsFront (map view_stmt statements.now) front.count (map resolved front.all.items) front.fault }
    requires placed { IsPlaced 0 (listed (map view_stmt statements.now)) }
    ensures typed { IfOk result (λ us. IsTyped (listed (map view_stmt statements.now)) us.items) }
    ensures fault { IfErr result (IsTypeFault (listed (map view_stmt statements.now))) }
{
    let typing = type_statements(alloc, statements, &front)?;
    uses_or_fault(alloc, typing, front.fault, front.all.len())
}

/// The uses of a script's statements, each with its final kinds, or their first fault of names, arguments or types.
fn statement_uses(alloc: Global, statements: &[Stmt]) -> Result<Vec<Use>, TypeFault>
    requires placed { IsPlaced 0 (listed (map view_stmt statements.now)) }
    ensures typed { IfOk result (λ us. IsTyped (listed (map view_stmt statements.now)) us.items) }
    ensures fault { IfErr result (IsTypeFault (listed (map view_stmt statements.now))) }
{
    match told_front(alloc, statements) {
        Ok(front) => answered(alloc, statements, front),
        Err(_) => Err(TypeFault::Memory),
    }
}
