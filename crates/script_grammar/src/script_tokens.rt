// The tokens of statements and scripts.
ghost use Rattle.std.specs.Prelude.{◌≡◌, ◌++◌, ◌∷◌, [], OnOk, IfOk, map};
ghost use Rattle.script_grammar.specs.Spelling.{spell, spelling};
ghost use Rattle.script_grammar.specs.Pieces.{each, between_commas};
ghost use Rattle.script_grammar.specs.DefPieces.{def_head, def_body};
ghost use Rattle.script_grammar.specs.View.{view_expr, view_bind, view_inner, view_param, view_def, view_part};
ghost use Rattle.script_grammar.specs.View.{view_stmt, view_script};

use crate::predicate_tokens::{put, put_if};
use crate::tree::{Bind, Def, Expr, Inner, Param, ParamForm, Script, Stmt, StmtPart};
use crate::value_tokens::{put_call, put_choice, put_expr, put_full};
use liq_base::{Memory, Text};
use script_lex::{Keyword, Symbol, TokenKind};
use std::alloc::Global;

/// The one list of token kinds that spells a script, as `docs/grammar.md` gives it.
pub fn spell(alloc: Global, script: &Script) -> Result<Vec<TokenKind>, Memory>
    ensures spelled { IfOk result (λ kinds. kinds.items ≡ spelling (view_script script.now)) }
{
    let mut out = Vec::new(alloc);
    put_stmts(alloc, &mut out, &script.statements)?;
    Ok(out)
}

// Appends to `out` the tokens that spell a binding: a name, `=` and a value.
fn put_bind(alloc: Global, out: &mut Vec<TokenKind>, bind: &Bind) -> Result<(), Memory>
    ensures { OnOk result (out.new.items ≡ out.old.items ++ spell (view_bind bind.now)) }
{
    put(out, TokenKind::Name(bind.name.copy(alloc)?))?;
    put(out, TokenKind::Symbol(Symbol::Assign))?;
    put_full(alloc, out, &bind.value)
}

// Appends to `out` the tokens that spell a binding in the body of a def, with the `;` that may end it.
fn put_inner(alloc: Global, out: &mut Vec<TokenKind>, inner: &Inner) -> Result<(), Memory>
    ensures { OnOk result (out.new.items ≡ out.old.items ++ spell (view_inner inner.now)) }
{
    put_bind(alloc, out, &inner.bind)?;
    put_if(out, TokenKind::Symbol(Symbol::Semicolon), inner.semicolon)
}

// Appends to `out` the tokens that spell the bindings in the body of a def, one after another.
fn put_inners(alloc: Global, out: &mut Vec<TokenKind>, inners: &[Inner]) -> Result<(), Memory>
    ensures { OnOk result (out.new.items ≡ out.old.items ++ each (map view_inner inners.now)) }
{
    for inner in inners {
        put_inner(alloc, out, inner)?;
    }
    Ok(())
}

// Appends to `out` the tokens that spell a parameter of a def: a name, `~name`, or `~name = value`.
fn put_param(alloc: Global, out: &mut Vec<TokenKind>, param: &Param) -> Result<(), Memory>
    ensures { OnOk result (out.new.items ≡ out.old.items ++ spell (view_param param.now)) }
{
    match &param.form {
        ParamForm::Plain => { put(out, TokenKind::Name(param.name.copy(alloc)?)) }
        ParamForm::Labelled => {
            put(out, TokenKind::Symbol(Symbol::Tilde))?;
            put(out, TokenKind::Name(param.name.copy(alloc)?))
        }
        ParamForm::Optional(value) => {
            put(out, TokenKind::Symbol(Symbol::Tilde))?;
            put(out, TokenKind::Name(param.name.copy(alloc)?))?;
            put(out, TokenKind::Symbol(Symbol::Assign))?;
            put_full(alloc, out, value)
        }
    }
}

// Appends to `out` the tokens that spell the parameters of a def, with commas between.
fn put_params(alloc: Global, out: &mut Vec<TokenKind>, params: &[Param]) -> Result<(), Memory>
    ensures { OnOk result (out.new.items ≡ out.old.items ++ between_commas (map view_param params.now)) }
{
    match params {
        [] => Ok(()),
        [first, rest @ ..] => {
            put_param(alloc, out, first)?;
            'others: for param in rest {
                put(out, TokenKind::Symbol(Symbol::Comma))?;
                put_param(alloc, out, param)?;
            }
            Ok(())
        }
    }
}

// Appends to `out` the tokens that spell the head of a def: `def`, the name and the parameters in parentheses.
fn put_head(
    alloc: Global,
    out: &mut Vec<TokenKind>,
    name: &Text,
    params: &[Param],
) -> Result<(), Memory>
    ensures { OnOk result (out.new.items ≡ out.old.items ++ def_head name.now (map view_param params.now)) }
{
    put(out, TokenKind::Keyword(Keyword::Def))?;
    put(out, TokenKind::NameOpen(name.copy(alloc)?))?;
    put_params(alloc, out, params)?;
    put(out, TokenKind::Symbol(Symbol::CloseRound))
}

// Appends to `out` the tokens that spell the body of a def: its bindings, its result `value` and `end`.
fn put_body(
    alloc: Global,
    out: &mut Vec<TokenKind>,
    inners: &[Inner],
    value: &Expr,
) -> Result<(), Memory>
    ensures { OnOk result (out.new.items ≡ out.old.items
        ++ def_body (map view_inner inners.now) (view_expr value.now)) }
{
    put_inners(alloc, out, inners)?;
    put_expr(alloc, out, value)?;
    put(out, TokenKind::Keyword(Keyword::End))
}

// Appends to `out` the tokens that spell a def, from its `def` to its `end`.
fn put_def(alloc: Global, out: &mut Vec<TokenKind>, def: &Def) -> Result<(), Memory>
    ensures { OnOk result (out.new.items ≡ out.old.items ++ spell (view_def def.now)) }
{
    put_head(alloc, out, &def.name, &def.params)?;
    put_if(out, TokenKind::Symbol(Symbol::Assign), def.equals)?;
    put_body(alloc, out, &def.inner, &def.result)
}

// Appends to `out` the tokens that spell a statement without its `;`: a binding, a def, a call or an `if`.
fn put_part(alloc: Global, out: &mut Vec<TokenKind>, part: &StmtPart) -> Result<(), Memory>
    ensures { OnOk result (out.new.items ≡ out.old.items ++ spell (view_part part.now)) }
{
    match part {
        StmtPart::Bind(bind) => put_bind(alloc, out, bind),
        StmtPart::Def(def) => put_def(alloc, out, def),
        StmtPart::Call(call) => put_call(alloc, out, call),
        StmtPart::If(choice) => put_choice(alloc, out, choice),
    }
}

// Appends the tokens of a statement, with the `;` that may end it.
fn put_stmt(alloc: Global, out: &mut Vec<TokenKind>, stmt: &Stmt) -> Result<(), Memory>
    ensures { OnOk result (out.new.items ≡ out.old.items ++ spell (view_stmt stmt.now)) }
{
    put_part(alloc, out, &stmt.part)?;
    put_if(out, TokenKind::Symbol(Symbol::Semicolon), stmt.semicolon)
}

// Appends to `out` the tokens that spell statements, one after another.
fn put_stmts(alloc: Global, out: &mut Vec<TokenKind>, stmts: &[Stmt]) -> Result<(), Memory>
    ensures { OnOk result (out.new.items ≡ out.old.items ++ each (map view_stmt stmts.now)) }
{
    for stmt in stmts {
        put_stmt(alloc, out, stmt)?;
    }
    Ok(())
}
