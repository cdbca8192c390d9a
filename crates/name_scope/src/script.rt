// What the names of a statement stand for, or the fault that is told.
ghost use Rattle.std.specs.Prelude.{◌≡◌, ◌≢◌, ◌++◌, IfErr, IsOkUnless, None, OnOk, Some, map, option_map};
ghost use Rattle.script_grammar.specs.View.{view_stmt};
ghost use Rattle.typing_rules.specs.NameFaults.{faults_in, name_fault_in as the_fault_in, reported_fault};
ghost use Rattle.typing_rules.specs.Scoping.{meant, names, with_statement};
ghost use Rattle.name_scope.specs.Noted.{found_in};
ghost use Rattle.name_scope.specs.Seen.{in_scope};

use crate::notes::Notes;
use crate::scope::Scope;
use crate::statements::note_statement;
use script_grammar::tree::Stmt;
use std::alloc::Global;
use typing_rules::{NameFault, TypeFault};

/// Resolves the names of one statement more, behind statements without a fault of names: adds to `notes` what they
/// stand for, and to the scope the name that it binds. Statements are counted from 1.
///
/// # Errors
///
/// The fault of names and arguments that is told of the statement, with its number (`docs/typing.md`). `Memory`:
/// memory was refused.
pub fn resolve_statement<'a>(
    alloc: Global,
    scope: &mut Scope<'a>,
    notes: &mut Notes,
    stmt: &'a Stmt,
    number: u32,
) -> Result<(), TypeFault>
    requires clear { notes.old.fault ≡ None }
    ensures names { OnOk result (found_in notes.new
        ≡ found_in notes.old ++ map meant (names (in_scope scope.old) (view_stmt stmt.entry.now))) }
    ensures bound { OnOk result (in_scope scope.new ≡ with_statement (view_stmt stmt.entry.now) (in_scope scope.old)) }
    ensures clear { OnOk result (notes.new.fault ≡ None) }
    ensures faultless { OnOk result (reported_fault (faults_in (in_scope scope.old) (view_stmt stmt.entry.now))
        ≡ None) }
    ensures told { IfErr result (λ f. f ≢ TypeFault.Memory
        → option_map (the_fault_in number) (reported_fault (faults_in (in_scope scope.old) (view_stmt stmt.entry.now)))
        ≡ Some f) }
{
    note_or_refuse(alloc, scope, notes, stmt)?;
    check_fault(notes, number)?;
    Ok(())
}

/// A fault of names as a fault of typing in the statement of this number.
fn in_statement(number: u32, fault: NameFault) -> TypeFault
    ensures same { result ≡ the_fault_in number fault }
{
    match fault {
        NameFault::Unknown { at } => TypeFault::UnknownName { stmt: number, at },
        NameFault::Missing { at, label } => TypeFault::MissingArgument {
            stmt: number,
            at,
            label,
        },
        NameFault::Extra { at } => TypeFault::ExtraArgument { stmt: number, at },
        NameFault::Repeated { at } => TypeFault::RepeatedName { stmt: number, at },
    }
}

/// Refuses statement `number` for the fault that was noted, if there is one. The fault is taken out of `notes`, since
/// its label is handed on.
fn check_fault(notes: &mut Notes, number: u32) -> Result<(), TypeFault>
    ensures kept { OnOk result (found_in notes.new ≡ found_in notes.old) }
    ensures faultless { OnOk result (notes.old.fault ≡ None) }
    ensures clear { OnOk result (notes.new.fault ≡ None) }
    ensures told { IfErr result (λ f. option_map (the_fault_in number) notes.old.fault ≡ Some f) }
{
    match notes.fault.take() {
        None => Ok(()),
        Some(fault) => Err(in_statement(number, fault)),
    }
}

/// Adds to `notes` what each name in one statement more stands for, or the fault that is told of it. It refuses only
/// for want of memory, as the fault `Memory`.
fn note_or_refuse<'a>(
    alloc: Global,
    scope: &mut Scope<'a>,
    notes: &mut Notes,
    stmt: &'a Stmt,
) -> Result<(), TypeFault>
    requires clear { notes.old.fault ≡ None }
    ensures fault { OnOk result (notes.new.fault
        ≡ reported_fault (faults_in (in_scope scope.old) (view_stmt stmt.entry.now))) }
    ensures names { OnOk result (notes.new.fault ≡ None
        → found_in notes.new ≡ found_in notes.old
        ++ map meant (names (in_scope scope.old) (view_stmt stmt.entry.now))) }
    ensures bound { OnOk result (in_scope scope.new ≡ with_statement (view_stmt stmt.entry.now) (in_scope scope.old)) }
    ensures refused { IsOkUnless result TypeFault.Memory }
{
    match note_statement(alloc, scope, notes, stmt) {
        Ok(()) => Ok(()),
        Err(_) => Err(TypeFault::Memory),
    }
}
