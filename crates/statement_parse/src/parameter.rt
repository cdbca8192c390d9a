// Parameters of a def.
ghost use Rattle.std.specs.Prelude.{◌≡◌, ◌<◌, ◌≤◌, ◌^◌, [], IfOk, length, map, take, drop};
ghost use Rattle.std.specs.List.{All};
ghost use Rattle.script_grammar.specs.Read.{next, many, behind, closed};
ghost use Rattle.statement_parse.specs.Reads.{behind_tilde, label_of, default_of, some_params};
ghost use Rattle.script_grammar.specs.Kinds.{is_comma, is_close_round};
ghost use Rattle.script_grammar.specs.ReadScript.{param};
ghost use Rattle.script_grammar.specs.View.{listed, view_param};
ghost use Rattle.script_grammar.specs.Whole.{IsWholeParam};
ghost use Rattle.parse_base.specs.Gives.{kinds, Gives, places, Reads};

use crate::tokens::name;
use liq_base::Text;
use parse_base::Fault;
use parse_base::token::{self, Class, place};
use script_grammar::tree::{Param, ParamForm};
use script_lex::{Symbol, Token, TokenKind};
use std::alloc::Global;
use value_parse::value;

/// Reads the parameters of a def behind its name, and the bracket behind them: (param (`,` param)*)? `)`. Answers
/// them and the tokens behind. `tokens` are the last of the script's `total`, by which `at` is an index.
pub fn params(
    alloc: Global,
    total: usize,
    tokens: &[Token],
) -> Result<(Vec<Param>, &[Token]), Fault>
    requires within { length tokens.now ≤ total }
    requires small { total < 2 ^ 32 }
    ensures shorter { IfOk result (λ x. length x.1.now < length tokens.now) }
    ensures gives { Gives (λ x. (listed (map view_param x.0.items), kinds x.1.now)) result
        (closed is_comma is_close_round (param (places total)) (kinds tokens.now)) }
    ensures whole { IfOk result (λ x. All IsWholeParam x.0.items) }
{
    let mut items = Vec::new(alloc);
    let rest = push_params(alloc, total, &mut items, tokens)?;
    Ok((items, rest))
}

// Reads the parameters of a def, maybe none, and the bracket behind them into a list that is empty at first: (param
// (`,` param)*)? `)`. Answers the tokens behind. `tokens` are the last of the script's `total`.
#[tactic(auto, unfolding(script_grammar::specs::Read::closed))]
fn push_params<'a>(
    alloc: Global,
    total: usize,
    items: &mut Vec<Param>,
    tokens: &'a [Token],
) -> Result<&'a [Token], Fault>
    requires within { length tokens.now ≤ total }
    requires small { total < 2 ^ 32 }
    requires none { items.old.items ≡ [] }
    ensures shorter { IfOk result (λ rest. length rest.now < length tokens.now) }
    ensures gives { Gives (λ rest. (listed (map view_param items.new.items), kinds rest.now)) result
        (closed is_comma is_close_round (param (places total)) (kinds tokens.now)) }
    ensures whole { IfOk result (λ rest. All IsWholeParam items.new.items) }
{
    if token::next_is(tokens, Class::CloseRound) {
        let (_close, rest) = token::expect(tokens, Class::CloseRound)?;
        Ok(rest)
    } else {
        some_params(alloc, total, items, tokens)
    }
}

// Reads the parameters of a def, at least one, and the bracket behind them into a list that is empty at first: param
// (`,` param)* `)`. Answers the tokens behind. `tokens` are the last of the script's `total`.
#[tactic(auto, unfolding(script_grammar::specs::Read::chain))]
fn some_params<'a>(
    alloc: Global,
    total: usize,
    items: &mut Vec<Param>,
    tokens: &'a [Token],
) -> Result<&'a [Token], Fault>
    requires within { length tokens.now ≤ total }
    requires small { total < 2 ^ 32 }
    requires none { items.old.items ≡ [] }
    ensures shorter { IfOk result (λ rest. length rest.now < length tokens.now) }
    ensures gives { Gives (λ rest. (listed (map view_param items.new.items), kinds rest.now)) result
        (some_params (places total) (kinds tokens.now)) }
    ensures whole { IfOk result (λ rest. All IsWholeParam items.new.items) }
{
    let (first, rest) = param(alloc, total, tokens)?;
    items.push(first)?;
    let rest = more_params(alloc, total, items, rest)?;
    let (_close, rest) = token::expect(rest, Class::CloseRound)?;
    Ok(rest)
}

// Reads the further parameters of a def into a list that holds the first one: (`,` param)*. Answers the tokens
// behind. `tokens` are the last of the script's `total`.
fn more_params<'a>(
    alloc: Global,
    total: usize,
    items: &mut Vec<Param>,
    tokens: &'a [Token],
) -> Result<&'a [Token], Fault>
    requires within { length tokens.now ≤ total }
    requires small { total < 2 ^ 32 }
    requires one { length items.old.items ≡ 1 }
    requires whole_first { All IsWholeParam items.old.items }
    ensures shorter { IfOk result (λ rest. length rest.now ≤ length tokens.now) }
    ensures kept { IfOk result (λ rest. take 1 items.new.items ≡ items.old.items) }
    ensures gives { Gives (λ rest. (listed (map view_param (drop 1 items.new.items)), kinds rest.now)) result
        (many (next is_comma) (behind is_comma (param (places total))) (kinds tokens.now)) }
    ensures whole { IfOk result (λ rest. All IsWholeParam items.new.items) }
{
    let mut rest = tokens;
    'turns: while token::next_is(rest, Class::Comma) {
        let (item, after) = comma_param(alloc, total, rest)?;
        items.push(item)?;
        rest = after;
    }
    Ok(rest)
}

// Reads a comma and the parameter behind it: `,` param. Answers the parameter and the tokens behind. `tokens` are the
// last of the script's `total`.
#[tactic(auto, unfolding(script_grammar::specs::Read::behind))]
fn comma_param(alloc: Global, total: usize, tokens: &[Token]) -> Result<(Param, &[Token]), Fault>
    requires within { length tokens.now ≤ total }
    requires small { total < 2 ^ 32 }
    ensures { Reads view_param IsWholeParam (behind is_comma (param (places total))) tokens.now result }
{
    let (_comma, after) = token::expect(tokens, Class::Comma)?;
    param(alloc, total, after)
}

// Reads a parameter of a def, and answers it and the tokens behind. param: Name | `~` Name | `~` Name `=` value.
// `tokens` are the last of the script's `total`, by which `at` is an index. A syntax fault tells how many tokens were
// left.
#[tactic(auto, unfolding(script_grammar::specs::ReadScript::param, crate::specs::Reads::behind_tilde))]
fn param(alloc: Global, total: usize, tokens: &[Token]) -> Result<(Param, &[Token]), Fault>
    requires within { length tokens.now ≤ total }
    requires small { total < 2 ^ 32 }
    ensures { Reads view_param IsWholeParam (param (places total)) tokens.now result }
{
    match tokens {
        [
            Token {
                kind: TokenKind::Name(name),
                ..
            },
            rest @ ..,
        ] => {
            let at = place(total, tokens);
            let name = name.copy(alloc)?;
            let form = ParamForm::Plain;
            Ok((Param { at, name, form }, rest))
        }
        [
            Token {
                kind: TokenKind::Symbol(Symbol::Tilde),
                ..
            },
            after @ ..,
        ] => labelled(alloc, total, after),
        _ => Err(Fault::Syntax(tokens.len())),
    }
}

// Reads a labelled parameter behind its `~`: Name | Name `=` value. Answers it and the tokens behind. `tokens` are
// the last of the script's `total`, by which `at` is an index.
#[tactic(auto, using(crate::proofs::Arms::tilde_is))]
fn labelled(alloc: Global, total: usize, tokens: &[Token]) -> Result<(Param, &[Token]), Fault>
    requires within { length tokens.now ≤ total }
    requires small { total < 2 ^ 32 }
    ensures shorter { IfOk result (λ x. length x.1.now < length tokens.now) }
    ensures gives { Gives (λ x. (view_param x.0, kinds x.1.now)) result
        (behind_tilde (places total) (kinds tokens.now)) }
    ensures whole { IfOk result (λ x. IsWholeParam x.0) }
{
    let at = place(total, tokens);
    let (name, after) = name(tokens)?;
    label_of(alloc, total, at, name, after)
}

// Reads the default, if any, of a labelled parameter behind its name: (`=` value)?. Answers the parameter and the
// tokens behind. `at` is the index of the name's token. `tokens` are the last of the script's `total`.
#[tactic(auto, unfolding(crate::specs::Reads::label_of))]
fn label_of<'a>(
    alloc: Global,
    total: usize,
    at: u32,
    name: &Text,
    tokens: &'a [Token],
) -> Result<(Param, &'a [Token]), Fault>
    requires within { length tokens.now ≤ total }
    requires small { total < 2 ^ 32 }
    ensures shorter { IfOk result (λ x. length x.1.now ≤ length tokens.now) }
    ensures gives { Gives (λ x. (view_param x.0, kinds x.1.now)) result
        (label_of (places total) at name.now (kinds tokens.now)) }
    ensures whole { IfOk result (λ x. IsWholeParam x.0) }
{
    let (assign, rest) = token::perhaps(tokens, Class::Assign);
    if assign {
        default_of(alloc, total, at, name, rest)
    } else {
        let name = name.copy(alloc)?;
        let form = ParamForm::Labelled;
        Ok((Param { at, name, form }, rest))
    }
}

// Reads the default value of a labelled parameter behind `=`, and answers the parameter and the tokens behind. `at`
// is the index of the name's token. `tokens` are the last of the script's `total`.
fn default_of<'a>(
    alloc: Global,
    total: usize,
    at: u32,
    name: &Text,
    tokens: &'a [Token],
) -> Result<(Param, &'a [Token]), Fault>
    requires within { length tokens.now ≤ total }
    requires small { total < 2 ^ 32 }
    ensures { Reads view_param IsWholeParam (default_of (places total) at name.now) tokens.now result }
{
    let name = name.copy(alloc)?;
    let (default, rest) = value(alloc, total, false, tokens)?;
    let form = ParamForm::Optional(default);
    Ok((Param { at, name, form }, rest))
}
