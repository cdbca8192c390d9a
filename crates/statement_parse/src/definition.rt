// Defs.
ghost use Rattle.std.specs.Prelude.{◌≡◌, ◌<◌, ◌≤◌, ◌^◌, IfOk, length};
ghost use Rattle.statement_parse.specs.Reads.{ended, def_of};
ghost use Rattle.script_grammar.specs.Kinds.{is_end};
ghost use Rattle.script_grammar.specs.Read.{expect};
ghost use Rattle.script_grammar.specs.ReadScript.{def};
ghost use Rattle.script_grammar.specs.View.{view_expr, view_def};
ghost use Rattle.script_grammar.specs.Whole.{IsWholeExpr, IsWholeDef};
ghost use Rattle.parse_base.specs.Gives.{kinds, Gives, places, Reads};

use crate::binding::inners;
use crate::parameter::params;
use crate::tokens::open_name;
use liq_base::Text;
use parse_base::Fault;
use parse_base::token::{self, Class, place};
use script_grammar::tree::{Def, Expr};
use script_lex::Token;
use std::alloc::Global;
use value_parse::result;

/// Reads a def: `def` NameOpen (param (`,` param)*)? `)` `=`? inner* expression `end`. Answers it and the tokens
/// behind. `tokens` are the last of the script's `total`, by which `at` is an index.
#[tactic(auto, using(crate::proofs::Arms::def_is))]
pub fn def(alloc: Global, total: usize, tokens: &[Token]) -> Result<(Def, &[Token]), Fault>
    requires within { length tokens.now ≤ total }
    requires small { total < 2 ^ 32 }
    ensures shorter { IfOk result (λ x. length x.1.now < length tokens.now) }
    ensures gives { Gives (λ x. (view_def x.0, kinds x.1.now)) result (def (places total) (kinds tokens.now)) }
    ensures whole { IfOk result (λ x. IsWholeDef x.0) }
{
    let (_def, rest) = token::expect(tokens, Class::Def)?;
    let at = place(total, rest);
    let (name, after) = open_name(rest)?;
    def_of(alloc, total, at, name, after)
}

// Reads a def from behind its name, whose token has the index `at`: (param (`,` param)*)? `)` `=`? inner* expression
// `end`. Answers the def and the tokens behind. `tokens` are the last of the script's `total`.
fn def_of<'a>(
    alloc: Global,
    total: usize,
    at: u32,
    name: &Text,
    tokens: &'a [Token],
) -> Result<(Def, &'a [Token]), Fault>
    requires within { length tokens.now ≤ total }
    requires small { total < 2 ^ 32 }
    ensures shorter { IfOk result (λ x. length x.1.now < length tokens.now) }
    ensures gives { Gives (λ x. (view_def x.0, kinds x.1.now)) result
        (def_of (places total) at name.now (kinds tokens.now)) }
    ensures whole { IfOk result (λ x. IsWholeDef x.0) }
{
    let name = name.copy(alloc)?;
    let (params, rest) = params(alloc, total, tokens)?;
    let (equals, rest) = token::perhaps(rest, Class::Assign);
    let (inner, rest) = inners(alloc, total, rest)?;
    let (result, rest) = ended(alloc, total, rest)?;
    Ok((
        Def {
            at,
            name,
            params,
            equals,
            inner,
            result,
        },
        rest,
    ))
}

// Reads the last of a def: expression `end`. Answers the expression, which is the result, and the tokens behind.
// `tokens` are the last of the script's `total`.
fn ended(alloc: Global, total: usize, tokens: &[Token]) -> Result<(Expr, &[Token]), Fault>
    requires within { length tokens.now ≤ total }
    requires small { total < 2 ^ 32 }
    ensures { Reads (λ e. (view_expr e, tt)) IsWholeExpr (ended (places total)) tokens.now result }
{
    let (result, rest) = result(alloc, total, tokens)?;
    before_end(result, rest)
}

// Reads `end` behind the tree `item` that was read, and hands that on, with the tokens behind. It is one function for
// any tree, whose drop where no `end` stands is then one goal for the prover.
fn before_end<'a, T: Drop>(item: T, tokens: &'a [Token]) -> Result<(T, &'a [Token]), Fault>
    ensures shorter { IfOk result (λ x. length x.1.now < length tokens.now) }
    ensures kept { IfOk result (λ x. x.0 ≡ item) }
    ensures gives { Gives (λ x. (tt, kinds x.1.now)) result (expect is_end (kinds tokens.now)) }
{
    let (_end, rest) = token::expect(tokens, Class::End)?;
    Ok((item, rest))
}
