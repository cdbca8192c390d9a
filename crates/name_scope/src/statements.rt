// The names that the texts of defs and statements use, and the names that they bind.
ghost use Rattle.std.specs.Prelude.{◌≡◌, ◌++◌, ◌∷◌, [], OnOk, None, map};
ghost use Rattle.script_grammar.specs.View.{listed, view_bind, view_call, view_def, view_expr, view_full, view_if};
ghost use Rattle.script_grammar.specs.View.{view_inner, view_param, view_part, view_stmt};
ghost use Rattle.typing_rules.specs.Arguments.{parameters_of};
ghost use Rattle.typing_rules.specs.NameFaults.{faults_in, reported_fault};
ghost use Rattle.typing_rules.specs.Scoping.{bound_function, inner_names, meant, names, with_bind, with_inners};
ghost use Rattle.typing_rules.specs.Scoping.{with_params, with_statement};
ghost use Rattle.name_scope.specs.Noted.{body_names, found_in, names_each, noted, with_names, with_part, with_repeats};
ghost use Rattle.script_grammar.specs.Tree.{Stmt as statement};
ghost use Rattle.name_scope.specs.Seen.{both_scopes, in_scope};

use crate::arguments::parameters;
use crate::notes::Notes;
use crate::scope::{Bound, Scope, Scopes};
use crate::values::{note_call, note_choice, note_expr, note_full};
use liq_base::Memory;
use script_grammar::tree::{Bind, Call, Def, Full, If, Inner, Param, ParamForm, Stmt, StmtPart};
use std::alloc::Global;

/// Adds to `notes` what each name in a def's text stands for, or its fault; `outer` has the names that statements
/// bind.
pub fn note_def<'a>(
    alloc: Global,
    outer: &Scope<'a>,
    notes: &mut Notes,
    def: &'a Def,
) -> Result<(), Memory>
    ensures noted { OnOk result (noted notes.new
        ≡ with_names (noted notes.old) (names (in_scope outer.now) (view_def def.entry.now))) }
{
    let mut inner: Scope<'a> = Scope::new(alloc);
    note_def_in(alloc, outer, &mut inner, notes, def)
}

/// Adds to `notes` what each name in a def's text stands for, or its fault. `inner` has no names at first, so that
/// the defaults of parameters see those of `outer` alone; then it takes those of the parameters and inner bindings.
fn note_def_in<'a>(
    alloc: Global,
    outer: &Scope<'a>,
    inner: &mut Scope<'a>,
    notes: &mut Notes,
    def: &'a Def,
) -> Result<(), Memory>
    requires empty { in_scope inner.old ≡ [] }
    ensures noted { OnOk result (noted notes.new
        ≡ with_names (noted notes.old) (names (in_scope outer.now) (view_def def.entry.now))) }
{
    note_defaults(
        alloc,
        Scopes {
            inner: &*inner,
            outer,
        },
        notes,
        &def.params,
    )?;
    note_body(alloc, outer, inner, notes, def)?;
    Ok(())
}

/// Adds to `notes` what each name in a statement stands for, or the fault that is told of it; statements before it had
/// none. The name that it binds is added to the scope.
pub(crate) fn note_statement<'a>(
    alloc: Global,
    scope: &mut Scope<'a>,
    notes: &mut Notes,
    stmt: &'a Stmt,
) -> Result<(), Memory>
    requires clear { notes.old.fault ≡ None }
    ensures fault { OnOk result (notes.new.fault
        ≡ reported_fault (faults_in (in_scope scope.old) (view_stmt stmt.entry.now))) }
    ensures names { OnOk result (notes.new.fault ≡ None
        → found_in notes.new ≡ found_in notes.old
        ++ map meant (names (in_scope scope.old) (view_stmt stmt.entry.now))) }
    ensures bound { OnOk result (in_scope scope.new ≡ with_statement (view_stmt stmt.entry.now) (in_scope scope.old)) }
{
    note_part(alloc, scope, notes, &stmt.part, stmt.semicolon)?;
    Ok(())
}

/// Adds to `notes` what each name in the default of a parameter stands for, or its fault. Only an optional parameter
/// has a default.
fn note_default(
    alloc: Global,
    scopes: Scopes<'_, '_>,
    notes: &mut Notes,
    param: &Param,
) -> Result<(), Memory>
    ensures noted { OnOk result (noted notes.new
        ≡ with_names (noted notes.old) (names (both_scopes scopes.entry) (view_param param.now))) }
{
    match &param.form {
        ParamForm::Plain => Ok(()),
        ParamForm::Labelled => Ok(()),
        ParamForm::Optional(full) => note_full(alloc, scopes, notes, full),
    }
}

/// Adds to `notes` what each name in the defaults of these parameters stands for in `scopes`, or its fault. No default
/// sees another parameter: their names are bound later.
fn note_defaults(
    alloc: Global,
    scopes: Scopes<'_, '_>,
    notes: &mut Notes,
    params: &[Param],
) -> Result<(), Memory>
    ensures noted { OnOk result (noted notes.new
        ≡ with_names (noted notes.old) (names_each (both_scopes scopes.entry) (map view_param params.now))) }
{
    for param in params {
        note_default(alloc, scopes, notes, param)?;
    }
    Ok(())
}

/// Binds the names of a def's parameters in `inner`, the scope of its body.
fn bind_params<'a>(inner: &mut Scope<'a>, params: &'a [Param]) -> Result<(), Memory>
    ensures bound { OnOk result (in_scope inner.new
        ≡ with_params (listed (map view_param params.entry.now)) (in_scope inner.old)) }
{
    for param in params {
        inner.bind(param.name.as_str(), Bound::Value(param.at))?;
    }
    Ok(())
}

/// Adds to `notes` what each name in the inner bindings of a def stands for; each binding sees those before it, and
/// its own name is then added to `inner`.
fn note_inners<'a>(
    alloc: Global,
    outer: &Scope<'a>,
    inner: &mut Scope<'a>,
    notes: &mut Notes,
    inners: &'a [Inner],
) -> Result<(), Memory>
    ensures noted { OnOk result (noted notes.new ≡ with_names (noted notes.old) (inner_names (in_scope inner.old
        ++ in_scope outer.now) (listed (map view_inner inners.entry.now)))) }
    ensures bound { OnOk result (in_scope inner.new ++ in_scope outer.now
        ≡ with_inners (listed (map view_inner inners.entry.now)) (in_scope inner.old ++ in_scope outer.now)) }
{
    for one in inners {
        note_full(
            alloc,
            Scopes {
                inner: &*inner,
                outer,
            },
            notes,
            &one.bind.value,
        )?;
        inner.bind(one.bind.name.as_str(), Bound::Value(one.bind.at))?;
    }
    Ok(())
}

/// Binds a def's parameters in `inner`, and adds to `notes` what each name in its inner bindings and its result stands
/// for, or its fault. A name that is not in `inner` is looked up in `outer`.
fn note_body<'a>(
    alloc: Global,
    outer: &Scope<'a>,
    inner: &mut Scope<'a>,
    notes: &mut Notes,
    def: &'a Def,
) -> Result<(), Memory>
    ensures noted { OnOk result (noted notes.new
        ≡ with_names (noted notes.old)
        (body_names (with_params (listed (map view_param def.entry.now.params.items)) (in_scope inner.old)
        ++ in_scope outer.now) (listed (map view_inner def.entry.now.inner.items)) (view_expr def.entry.now.result))) }
{
    bind_params(inner, &def.params)?;
    note_inners(alloc, outer, inner, notes, &def.inner)?;
    note_expr(
        alloc,
        Scopes {
            inner: &*inner,
            outer,
        },
        notes,
        &def.result,
    )?;
    Ok(())
}

/// Adds to `notes` what each name in a value outside defs stands for, or its fault. No inner scope is there, so an
/// empty one is made.
fn note_value_part(
    alloc: Global,
    scope: &Scope<'_>,
    notes: &mut Notes,
    full: &Full,
) -> Result<(), Memory>
    ensures noted { OnOk result (noted notes.new
        ≡ with_names (noted notes.old) (names (in_scope scope.now) (view_full full.now))) }
{
    let none = Scope::new(alloc);
    note_full(
        alloc,
        Scopes {
            inner: &none,
            outer: scope,
        },
        notes,
        full,
    )?;
    Ok(())
}

/// Adds to `notes` what each name in the value of a binding stands for, or its fault, and then the bound name to the
/// scope. The value sees only what was bound before, perhaps an older binding of the same name.
fn note_bind_part<'a>(
    alloc: Global,
    scope: &mut Scope<'a>,
    notes: &mut Notes,
    bind: &'a Bind,
) -> Result<(), Memory>
    ensures noted { OnOk result (noted notes.new
        ≡ with_names (noted notes.old) (names (in_scope scope.old) (view_bind bind.entry.now))) }
    ensures bound { OnOk result (in_scope scope.new ≡ with_bind (view_bind bind.entry.now) (in_scope scope.old)) }
{
    note_value_part(alloc, &*scope, notes, &bind.value)?;
    scope.bind(bind.name.as_str(), Bound::Value(bind.at))?;
    Ok(())
}

/// Adds to `notes` the faults of a def's repeated parameters and what each name in its text stands for, and then the
/// def's name to the scope: behind its text, so that a def cannot call itself.
fn note_def_part<'a>(
    alloc: Global,
    scope: &mut Scope<'a>,
    notes: &mut Notes,
    def: &'a Def,
) -> Result<(), Memory>
    ensures noted { OnOk result (noted notes.new
        ≡ with_names (with_repeats (noted notes.old) (listed (map view_param def.entry.now.params.items)))
        (names (in_scope scope.old) (view_def def.entry.now))) }
    ensures bound { OnOk result (in_scope scope.new
        ≡ (
          def.entry.now.name,
          bound_function def.entry.now.at
              (parameters_of (listed (map view_param def.entry.now.params.items))),
        ) ∷ in_scope scope.old) }
{
    notes.add_repeats(alloc, &def.params)?;
    note_def(alloc, &*scope, notes, def)?;
    let params = parameters(alloc, &def.params)?;
    scope.bind(def.name.as_str(), Bound::Function(def.at, params))?;
    Ok(())
}

/// Adds to `notes` what each name in a statement that is a call stands for, or its fault. It binds no name.
fn note_call_part(
    alloc: Global,
    scope: &Scope<'_>,
    notes: &mut Notes,
    call: &Call,
) -> Result<(), Memory>
    ensures noted { OnOk result (noted notes.new
        ≡ with_names (noted notes.old) (names (in_scope scope.now) (view_call call.now))) }
{
    let none = Scope::new(alloc);
    note_call(
        alloc,
        Scopes {
            inner: &none,
            outer: scope,
        },
        notes,
        call,
    )?;
    Ok(())
}

/// Adds to `notes` what each name in a statement that is an `if` stands for, or its fault. It binds no name.
fn note_if_part(
    alloc: Global,
    scope: &Scope<'_>,
    notes: &mut Notes,
    choice: &If,
) -> Result<(), Memory>
    ensures noted { OnOk result (noted notes.new
        ≡ with_names (noted notes.old) (names (in_scope scope.now) (view_if choice.now))) }
{
    let none = Scope::new(alloc);
    note_choice(
        alloc,
        Scopes {
            inner: &none,
            outer: scope,
        },
        notes,
        choice,
    )?;
    Ok(())
}

/// Adds to `notes` what each name in a statement stands for, or its fault, by which of the four sorts it is. The name
/// that a binding or a def binds is added to the scope. Only the contract reads `_semicolon`, whether a `;` is there.
fn note_part<'a>(
    alloc: Global,
    scope: &mut Scope<'a>,
    notes: &mut Notes,
    part: &'a StmtPart,
    _semicolon: bool,
) -> Result<(), Memory>
    ensures noted { OnOk result (noted notes.new
        ≡ with_part (noted notes.old) (in_scope scope.old) (view_part part.entry.now)) }
    ensures bound { OnOk result (in_scope scope.new
        ≡ with_statement (statement (view_part part.entry.now) _semicolon) (in_scope scope.old)) }
{
    match part {
        StmtPart::Bind(bind) => {
            note_bind_part(alloc, scope, notes, bind)?;
            Ok(())
        }
        StmtPart::Def(def) => {
            note_def_part(alloc, scope, notes, def)?;
            Ok(())
        }
        StmtPart::Call(call) => {
            note_call_part(alloc, &*scope, notes, call)?;
            Ok(())
        }
        StmtPart::If(choice) => {
            note_if_part(alloc, &*scope, notes, choice)?;
            Ok(())
        }
    }
}
