// Statements.
ghost use Rattle.std.specs.Prelude.{◌≡◌, ◌<◌, ◌≤◌, ◌^◌, ℕ, Ok, IfOk, length, map, vec_len, vec_capacity};
ghost use Rattle.std.specs.List.{All};
ghost use Rattle.script_grammar.specs.Kinds.{is_any};
ghost use Rattle.script_grammar.specs.Read.{Read, next, many};
ghost use Rattle.script_grammar.specs.ReadScript.{stmt};
ghost use Rattle.script_grammar.specs.Tree.{Tree, ACall, ADef, AFull, AnIf};
ghost use Rattle.script_grammar.specs.View.{listed, view_call, view_def, view_full, view_if, view_part, view_stmt};
ghost use Rattle.script_grammar.specs.Whole.{IsWholeCall, IsWholeDef, IsWholeFull, IsWholeIf, IsWholePart, IsWholeStmt};
ghost use Rattle.parse_base.specs.Gives.{kinds, Gives, places};
ghost use Rattle.statement_parse.specs.Reads.{as_bind, as_call, as_def, as_if, as_stmt, bind_stmt, bind_stmt_of};
ghost use Rattle.statement_parse.specs.Reads.{pushed};

use crate::definition::def;
use crate::tokens::name;
use liq_base::Text;
use parse_base::Fault;
use parse_base::token::{self, Class, place};
use script_grammar::tree::{Bind, Call, Def, Full, If, Stmt, StmtPart};
use script_lex::Token;
use std::alloc::Global;
use value_parse::{call, choice, value};

/// At first room is made for a statement to each so many tokens: only a call without arguments has fewer. Room that is
/// not used is never touched, and a list that does not suffice grows as it is filled.
const TOKENS_A_STATEMENT: usize = 3;

/// Reads statements up to the end of the tokens: statement*. Answers them and the tokens behind, of which there are
/// none. `tokens` are the last of the script's `total`, by which `at` is an index.
pub fn statements(
    alloc: Global,
    total: usize,
    tokens: &[Token],
) -> Result<(Vec<Stmt>, &[Token]), Fault>
    requires within { length tokens.now ≤ total }
    requires small { total < 2 ^ 32 }
    ensures gives { Gives (λ x. (listed (map view_stmt x.0.items), kinds x.1.now)) result
        (many (next is_any) (stmt (places total)) (kinds tokens.now)) }
    ensures whole { IfOk result (λ x. All IsWholeStmt x.0.items) }
{
    let mut items = Vec::with_capacity(alloc, tokens.len() / TOKENS_A_STATEMENT)?;
    let mut rest = tokens;
    'turns: while token::next_is(rest, Class::Any) {
        rest = statement(alloc, total, &mut items, rest)?;
    }
    Ok((items, rest))
}

// Reads a statement and adds it to the list; answers the tokens behind it. statement: (binding | def | call | if)
// `;`?. `tokens` are the last of the script's `total`. Room in the list is made first, so that adding cannot fail.
fn statement<'a>(
    alloc: Global,
    total: usize,
    items: &mut Vec<Stmt>,
    tokens: &'a [Token],
) -> Result<&'a [Token], Fault>
    requires within { length tokens.now ≤ total }
    requires small { total < 2 ^ 32 }
    ensures shorter { IfOk result (λ rest. length rest.now < length tokens.now) }
    ensures gives { Gives (λ rest. (map view_stmt items.new.items, kinds rest.now)) result
        (pushed (map view_stmt items.old.items) (stmt (places total) (kinds tokens.now))) }
    ensures whole { All IsWholeStmt items.old.items → IfOk result (λ _. All IsWholeStmt items.new.items) }
{
    items.reserve(1)?;
    if token::next_is(tokens, Class::Name) {
        bind_stmt(alloc, total, items, tokens)
    } else if token::next_is(tokens, Class::Def) {
        keep_def(items, def(alloc, total, tokens))
    } else if token::next_is(tokens, Class::OpenName) {
        keep_call(items, call(alloc, total, tokens))
    } else if token::next_is(tokens, Class::If) {
        keep_if(items, choice(alloc, total, tokens))
    } else {
        Err(Fault::Syntax(tokens.len()))
    }
}

// Reads a statement that is a binding and adds it to the list, which has room for it; answers the tokens behind it:
// binding `;`?. `tokens` are the last of the script's `total`, by which `at` is an index.
#[tactic(auto, using(crate::proofs::Arms::bind_is))]
fn bind_stmt<'a>(
    alloc: Global,
    total: usize,
    items: &mut Vec<Stmt>,
    tokens: &'a [Token],
) -> Result<&'a [Token], Fault>
    requires within { length tokens.now ≤ total }
    requires small { total < 2 ^ 32 }
    requires room { vec_len items.old < vec_capacity items.old }
    ensures shorter { IfOk result (λ rest. length rest.now < length tokens.now) }
    ensures gives { Gives (λ rest. (map view_stmt items.new.items, kinds rest.now)) result
        (pushed (map view_stmt items.old.items) (bind_stmt (places total) (kinds tokens.now))) }
    ensures whole { All IsWholeStmt items.old.items → IfOk result (λ _. All IsWholeStmt items.new.items) }
{
    let at = place(total, tokens);
    let (name, after) = name(tokens)?;
    bind_stmt_of(alloc, total, items, at, name, after)
}

// Reads a statement that is a binding from behind its name, and adds it to the list: `=` value `;`?. Answers the
// tokens behind. `at` is the index of the name's token. `tokens` are the last of the script's `total`.
fn bind_stmt_of<'a>(
    alloc: Global,
    total: usize,
    items: &mut Vec<Stmt>,
    at: u32,
    name: &Text,
    tokens: &'a [Token],
) -> Result<&'a [Token], Fault>
    requires within { length tokens.now ≤ total }
    requires small { total < 2 ^ 32 }
    requires room { vec_len items.old < vec_capacity items.old }
    ensures shorter { IfOk result (λ rest. length rest.now < length tokens.now) }
    ensures gives { Gives (λ rest. (map view_stmt items.new.items, kinds rest.now)) result
        (pushed (map view_stmt items.old.items) (bind_stmt_of (places total) at name.now (kinds tokens.now))) }
    ensures whole { All IsWholeStmt items.old.items → IfOk result (λ _. All IsWholeStmt items.new.items) }
{
    let (_assign, rest) = token::expect(tokens, Class::Assign)?;
    let name = name.copy(alloc)?;
    keep_bind(items, at, name, value(alloc, total, false, rest))
}

// Adds the binding of the value that was read as a statement, with the `;` that may stand behind it, and answers the
// tokens behind both. `at` is the index of the name's token.
fn keep_bind<'a>(
    items: &mut Vec<Stmt>,
    at: u32,
    name: Text,
    read: Result<(Full, &'a [Token]), Fault>,
) -> Result<&'a [Token], Fault>
    requires room { vec_len items.old < vec_capacity items.old }
    ensures shorter { (n : ℕ) → IfOk read.entry (λ x. length x.1.now < n) → IfOk result (λ rest. length rest.now < n) }
    ensures gives { (r : Read (Tree AFull)) → Gives (λ x. (view_full x.0, kinds x.1.now)) read.entry r
        → Gives (λ rest. (map view_stmt items.new.items, kinds rest.now)) result
        (pushed (map view_stmt items.old.items) (as_stmt (as_bind at name r))) }
    ensures whole { All IsWholeStmt items.old.items → IfOk read.entry (λ x. IsWholeFull x.0)
        → IfOk result (λ _. All IsWholeStmt items.new.items) }
{
    let (value, rest) = read?;
    Ok(keep(items, StmtPart::Bind(Bind { at, name, value }), rest))
}

// Adds the def that was read as a statement, with the `;` that may stand behind it, and answers the tokens behind
// both.
fn keep_def<'a>(
    items: &mut Vec<Stmt>,
    read: Result<(Def, &'a [Token]), Fault>,
) -> Result<&'a [Token], Fault>
    requires room { vec_len items.old < vec_capacity items.old }
    ensures shorter { (n : ℕ) → IfOk read.entry (λ x. length x.1.now < n) → IfOk result (λ rest. length rest.now < n) }
    ensures gives { (r : Read (Tree ADef)) → Gives (λ x. (view_def x.0, kinds x.1.now)) read.entry r
        → Gives (λ rest. (map view_stmt items.new.items, kinds rest.now)) result
        (pushed (map view_stmt items.old.items) (as_stmt (as_def r))) }
    ensures whole { All IsWholeStmt items.old.items → IfOk read.entry (λ x. IsWholeDef x.0)
        → IfOk result (λ _. All IsWholeStmt items.new.items) }
{
    let (def, rest) = read?;
    Ok(keep(items, StmtPart::Def(def), rest))
}

// Adds the call that was read as a statement, with the `;` that may stand behind it, and answers the tokens behind
// both.
fn keep_call<'a>(
    items: &mut Vec<Stmt>,
    read: Result<(Call, &'a [Token]), Fault>,
) -> Result<&'a [Token], Fault>
    requires room { vec_len items.old < vec_capacity items.old }
    ensures shorter { (n : ℕ) → IfOk read.entry (λ x. length x.1.now < n) → IfOk result (λ rest. length rest.now < n) }
    ensures gives { (r : Read (Tree ACall)) → Gives (λ x. (view_call x.0, kinds x.1.now)) read.entry r
        → Gives (λ rest. (map view_stmt items.new.items, kinds rest.now)) result
        (pushed (map view_stmt items.old.items) (as_stmt (as_call r))) }
    ensures whole { All IsWholeStmt items.old.items → IfOk read.entry (λ x. IsWholeCall x.0)
        → IfOk result (λ _. All IsWholeStmt items.new.items) }
{
    let (call, rest) = read?;
    Ok(keep(items, StmtPart::Call(call), rest))
}

// Adds the `if` that was read as a statement, with the `;` that may stand behind it, and answers the tokens behind
// both.
fn keep_if<'a>(
    items: &mut Vec<Stmt>,
    read: Result<(If, &'a [Token]), Fault>,
) -> Result<&'a [Token], Fault>
    requires room { vec_len items.old < vec_capacity items.old }
    ensures shorter { (n : ℕ) → IfOk read.entry (λ x. length x.1.now < n) → IfOk result (λ rest. length rest.now < n) }
    ensures gives { (r : Read (Tree AnIf)) → Gives (λ x. (view_if x.0, kinds x.1.now)) read.entry r
        → Gives (λ rest. (map view_stmt items.new.items, kinds rest.now)) result
        (pushed (map view_stmt items.old.items) (as_stmt (as_if r))) }
    ensures whole { All IsWholeStmt items.old.items → IfOk read.entry (λ x. IsWholeIf x.0)
        → IfOk result (λ _. All IsWholeStmt items.new.items) }
{
    let (choice, rest) = read?;
    Ok(keep(items, StmtPart::If(choice), rest))
}

// Adds a statement of this part to the list, which has room for it, with the `;` that may stand behind it. Answers
// the tokens behind both.
fn keep<'a>(items: &mut Vec<Stmt>, part: StmtPart, tokens: &'a [Token]) -> &'a [Token]
    requires room { vec_len items.old < vec_capacity items.old }
    ensures shorter { length result.now ≤ length tokens.now }
    ensures gives { pushed (map view_stmt items.old.items) (as_stmt (Ok (view_part part, kinds tokens.now)))
        ≡ Ok (map view_stmt items.new.items, kinds result.now) }
    ensures whole { All IsWholeStmt items.old.items → IsWholePart part → All IsWholeStmt items.new.items }
{
    let (semicolon, rest) = token::perhaps(tokens, Class::Semicolon);
    items.push_reserved(Stmt { part, semicolon });
    rest
}
