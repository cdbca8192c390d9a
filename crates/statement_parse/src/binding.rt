// Bindings in the body of a def, each function reading as `script_grammar`'s reading functions do; the production that
// it reads stands at its head, in the notation of `docs/grammar.md`. The tokens are the last of `total`, by which a
// field `at` is an index.
ghost use Rattle.std.specs.Prelude.{◌<◌, ◌≤◌, ◌^◌, true, IfOk, length, map};
ghost use Rattle.std.specs.List.{All};
ghost use Rattle.script_grammar.specs.Read.{many};
ghost use Rattle.statement_parse.specs.Reads.{bind_of};
ghost use Rattle.script_grammar.specs.ReadValue.{binds};
ghost use Rattle.script_grammar.specs.ReadScript.{bind, inner};
ghost use Rattle.script_grammar.specs.View.{listed, view_bind, view_inner};
ghost use Rattle.script_grammar.specs.Whole.{IsWholeBind, IsWholeInner};
ghost use Rattle.parse_base.specs.Gives.{kinds, Gives, places, Reads};

use crate::tokens::{at_binding, name};
use liq_base::Text;
use parse_base::Fault;
use parse_base::token::{self, Class, place};
use script_grammar::tree::{Bind, Inner};
use script_lex::Token;
use std::alloc::Global;
use value_parse::value;

/// Reads the bindings in the body of a def, as many as there are: inner*. Answers them and the tokens behind.
/// `tokens` are the last of the script's `total`, by which `at` is an index.
pub fn inners(
    alloc: Global,
    total: usize,
    tokens: &[Token],
) -> Result<(Vec<Inner>, &[Token]), Fault>
    requires within { length tokens.now ≤ total }
    requires small { total < 2 ^ 32 }
    ensures shorter { IfOk result (λ x. length x.1.now ≤ length tokens.now) }
    ensures gives { Gives (λ x. (listed (map view_inner x.0.items), kinds x.1.now)) result
        (many binds (inner (places total)) (kinds tokens.now)) }
    ensures whole { IfOk result (λ x. All IsWholeInner x.0.items) }
{
    let mut items = Vec::new(alloc);
    let mut rest = tokens;
    'turns: while at_binding(rest) {
        let (item, after) = inner(alloc, total, rest)?;
        items.push(item)?;
        rest = after;
    }
    Ok((items, rest))
}

// Reads a binding in the body of a def, with the `;` that may stand behind it, and answers both with the tokens
// behind. inner: binding `;`?. `tokens` are the last of the script's `total`.
#[tactic(auto, unfolding(script_grammar::specs::ReadScript::inner))]
fn inner(alloc: Global, total: usize, tokens: &[Token]) -> Result<(Inner, &[Token]), Fault>
    requires within { length tokens.now ≤ total }
    requires small { total < 2 ^ 32 }
    ensures { Reads view_inner IsWholeInner (inner (places total)) tokens.now result }
{
    let (bind, rest) = bind(alloc, total, tokens)?;
    let (semicolon, rest) = token::perhaps(rest, Class::Semicolon);
    Ok((Inner { bind, semicolon }, rest))
}

// Reads a binding in the body of a def: Name `=` value. Answers it and the tokens behind. A `(` may stand behind it.
// `tokens` are the last of the script's `total`, by which `at` is an index.
#[tactic(auto, using(crate::proofs::Arms::bind_is))]
fn bind(alloc: Global, total: usize, tokens: &[Token]) -> Result<(Bind, &[Token]), Fault>
    requires within { length tokens.now ≤ total }
    requires small { total < 2 ^ 32 }
    ensures shorter { IfOk result (λ x. length x.1.now < length tokens.now) }
    ensures gives { Gives (λ x. (view_bind x.0, kinds x.1.now)) result (bind true (places total) (kinds tokens.now)) }
    ensures whole { IfOk result (λ x. IsWholeBind x.0) }
{
    let at = place(total, tokens);
    let (name, after) = name(tokens)?;
    bind_of(alloc, total, at, name, after)
}

// Reads `=` and a value behind the name of a binding, whose token has the index `at`. Answers the binding and the
// tokens behind. The value is read as loose, since a `(` may stand behind it. `tokens` are the last of the script's
// `total`.
fn bind_of<'a>(
    alloc: Global,
    total: usize,
    at: u32,
    name: &Text,
    tokens: &'a [Token],
) -> Result<(Bind, &'a [Token]), Fault>
    requires within { length tokens.now ≤ total }
    requires small { total < 2 ^ 32 }
    ensures { Reads view_bind IsWholeBind (bind_of true (places total) at name.now) tokens.now result }
{
    let name = name.copy(alloc)?;
    let (_assign, rest) = token::expect(tokens, Class::Assign)?;
    let (value, rest) = value(alloc, total, true, rest)?;
    Ok((Bind { at, name, value }, rest))
}
