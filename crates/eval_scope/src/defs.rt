// A script, with a table of where its defs stand.
ghost use Rattle.std.specs.Prelude.{◌≡◌, IfOk, OnOk, option_map};
ghost use Rattle.eval_scope.specs.Places.{IsTable, Notes, def_if, is_def, names};
ghost use Rattle.script_grammar.specs.View.{view_def, view_script, view_stmt};
ghost use Rattle.typing_rules.specs.Defs.{def_at};

use crate::places::note;
use liq_base::{Memory, TokenTable};
use script_grammar::tree::{Def, Script, Stmt, StmtPart};
use std::alloc::Global;

/// A script, with a table that has for the token of a def's name the index of its statement.
#[derive(Drop)]
pub struct Defs<'a> {
    pub script: &'a Script,
    places: TokenTable<u32>,
    ghost table: { IsTable is_def places script.now.statements.items },
}

impl<'a> Defs<'a> {
    /// The defs of a script, with a table of their statements.
    pub fn new(alloc: Global, script: &'a Script) -> Result<Defs<'a>, Memory>
        ensures { IfOk result (λ d. d.script.now ≡ script.entry.now) }
    {
        let mut places = TokenTable::new(alloc);
        for (place, stmt) in script.statements.iter().enumerate() {
            note_def(&mut places, stmt, place)?;
        }
        Ok(Defs { script, places })
    }

    /// The def whose name stands at token `at`; `None` if there is none.
    pub fn find(&self, at: u32) -> Option<&'a Def>
        ensures { option_map (λ d. view_def d.now) result ≡ def_at at (view_script self.now.script.now) }
    {
        let place = self.places.get(at)?;
        let stmt = self.script.statements.get(place as usize)?;
        def_of(stmt, at)
    }
}

// Notes the index of a statement by the token of its name, if it is a def.
fn note_def(places: &mut TokenTable<u32>, stmt: &Stmt, place: usize) -> Result<(), Memory>
    ensures { OnOk result (Notes (names (view_stmt stmt.now)) places.old place places.new) }
{
    match &stmt.part {
        StmtPart::Def(def) => note(places, def.at, place),
        _ => Ok(()),
    }
}

/// The def that a statement is, if its name stands at token `at`.
fn def_of(stmt: &Stmt, at: u32) -> Option<&Def>
    ensures { option_map (λ d. view_def d.now) result ≡ def_if at (view_stmt stmt.now) }
{
    match &stmt.part {
        StmtPart::Def(def) => { if def.at == at { Some(def) } else { None } }
        _ => None,
    }
}
