// The names of the statements before the first with a fault of names.
ghost use Rattle.std.specs.Prelude.{◌≡◌, ◌≢◌, ◌++◌, [], None, Some, IfErr, IfOk, OnOk, map, option_map};
ghost use Rattle.script_grammar.specs.View.{view_stmt};
ghost use Rattle.typing_rules.specs.NameFaults.{faults_in, name_fault_in, reported_fault};
ghost use Rattle.typing_rules.specs.Scoping.{meant, names, with_statement};
ghost use Rattle.name_scope.specs.Noted.{found_in, resolved};
ghost use Rattle.name_scope.specs.Seen.{in_scope};
ghost use Rattle.type_infer.specs.Fronts.{IsFront};

use liq_base::Memory;
use name_scope::{Notes, Resolved, Scope, resolve_statement};
use script_grammar::tree::Stmt;
use std::alloc::Global;
use typing_rules::TypeFault;

/// What the names of the statements before the first with a fault of names mean, in the order of the tokens, and how
/// many these statements are. `fault` is the fault of names of the next statement; `None` if all statements are there.
#[derive(Drop)]
pub struct Front {
    pub all: Vec<Resolved>,
    pub count: usize,
    pub fault: Option<TypeFault>,
}

/// Resolves the names of a script up to its first fault of names: what they mean, in how many statements, and that
/// fault. `Memory` also where there are 2^32 statements and more.
pub fn resolve_front(alloc: Global, statements: &[Stmt]) -> Result<Front, Memory>
    ensures { IfOk result (λ f. IsFront (map view_stmt statements.now) f.count (map resolved f.all.items) f.fault) }
{
    let mut scope = Scope::new(alloc);
    let mut notes = Notes::new(alloc);
    resolve_each(alloc, &mut scope, &mut notes, statements)
}

/// Resolves the names of statements one by one, up to the first fault of names: what they mean, in how many
/// statements, and that fault. The scope has no names at first, and `notes` no fault.
fn resolve_each<'a>(
    alloc: Global,
    scope: &mut Scope<'a>,
    notes: &mut Notes,
    statements: &'a [Stmt],
) -> Result<Front, Memory>
    requires scope { in_scope scope.old ≡ [] }
    requires notes { notes.old.fault ≡ None }
    ensures { IfOk result
        (λ f. IsFront (map view_stmt statements.entry.now) f.count (map resolved f.all.items) f.fault) }
{
    let mut all = Vec::new(alloc);
    let mut number: u32 = 0;
    for stmt in statements {
        if number == u32::MAX {
            return Err(Memory);
        }
        match note_names(alloc, scope, notes, stmt, number + 1) {
            Err(fault) => {
                return Ok(Front {
                    all,
                    count: number as usize,
                    fault: Some(fault),
                });
            }
            Ok(()) => add_all(&mut all, &notes.found)?,
        }
        number += 1;
    }
    Ok(Front {
        all,
        count: number as usize,
        fault: None,
    })
}

/// Puts into `notes` what the names of this statement mean, and nothing else, and lets the scope stand behind it.
/// `Err` is the statement's fault of names. `number` counts the statements from 1.
fn note_names<'a>(
    alloc: Global,
    scope: &mut Scope<'a>,
    notes: &mut Notes,
    stmt: &'a Stmt,
    number: u32,
) -> Result<(), TypeFault>
    requires clear { notes.old.fault ≡ None }
    ensures names { OnOk result (found_in notes.new
        ≡ map meant (names (in_scope scope.old) (view_stmt stmt.entry.now))) }
    ensures clear { OnOk result (notes.new.fault ≡ None) }
    ensures faultless { OnOk result (reported_fault (faults_in (in_scope scope.old) (view_stmt stmt.entry.now))
        ≡ None) }
    ensures bound { OnOk result (in_scope scope.new ≡ with_statement (view_stmt stmt.entry.now) (in_scope scope.old)) }
    ensures told { IfErr result (λ f. f ≢ TypeFault.Memory
        → option_map (name_fault_in number) (reported_fault (faults_in (in_scope scope.old) (view_stmt stmt.entry.now)))
        ≡ Some f) }
{
    notes.found.clear();
    resolve_statement(alloc, scope, notes, stmt, number)?;
    Ok(())
}

/// Adds what further names mean, `more`, to the end of `all`.
fn add_all(all: &mut Vec<Resolved>, more: &[Resolved]) -> Result<(), Memory>
    ensures { OnOk result (map resolved all.new.items ≡ map resolved all.old.items ++ map resolved more.now) }
{
    for one in more {
        all.push(*one)?;
    }
    Ok(())
}
