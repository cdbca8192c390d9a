// Predicates, each nonterminal by a function of its own.
ghost use Rattle.std.specs.Prelude.{◌≡◌, ◌<◌, ◌≤◌, IfOk, length, map};
ghost use Rattle.std.specs.List.{All};
ghost use Rattle.script_grammar.specs.Kinds.{is_and, is_or};
ghost use Rattle.script_grammar.specs.Read.{behind, many, next};
ghost use Rattle.script_grammar.specs.ReadPredicate.{interval, pand, patom, pnot, por, por_by, por_step};
ghost use Rattle.script_grammar.specs.View.{listed, view_pand, view_patom, view_pnot, view_por};
ghost use Rattle.script_grammar.specs.Whole.{IsWholePAnd, IsWholePAtom, IsWholePNot, IsWholePOr};
ghost use Rattle.parse_base.specs.Gives.{kinds, Gives, Reads};

use crate::Fault;
use crate::token::{self, Class};
use fixed_text::TimeMark;
use script_grammar::make;
use script_grammar::predicate::{PAnd, PAtom, PNot, POr};
use script_lex::{Keyword, Symbol, Token, TokenKind};
use std::alloc::Global;

/// Reads the predicate that the tokens begin with, and answers its tree and the tokens behind it.
/// Calls nest once for each open parenthesis.
///
/// A fault counts the tokens from the first one that cannot go on.
#[tactic(auto, using(crate::proofs::Levels::por_levels))]
pub fn predicate(alloc: Global, tokens: &[Token]) -> Result<(POr, &[Token]), Fault>
    ensures { Reads view_por IsWholePOr por tokens.now result }
{
    por(alloc, tokens.len() + 1, tokens)
}

// Reads the predicate that the tokens begin with, and answers its tree and the tokens behind it.
// It has at most `levels` levels: one for itself, and one for each that it nests in parentheses.
// The bound shows that reading ends; more levels than tokens are enough, so it refuses nothing.
#[cycle(predicate)]
fn por(alloc: Global, levels: usize, tokens: &[Token]) -> Result<(POr, &[Token]), Fault>
    ensures { Reads view_por IsWholePOr (por_by levels) tokens.now result }
{
    if levels == 0 {
        Err(Fault::Syntax(tokens.len()))
    } else {
        por_step(alloc, levels - 1, tokens)
    }
}

// Reads terms joined by `or`, the grammar's predicate: and (`or` and)*; answers its tree and the tokens behind it.
// Predicates in parentheses nest in at most `levels` levels.
#[cycle(predicate)]
#[tactic(auto, unfolding(script_grammar::specs::ReadPredicate::por_step, script_grammar::specs::Read::chain))]
fn por_step(alloc: Global, levels: usize, tokens: &[Token]) -> Result<(POr, &[Token]), Fault>
    ensures { Reads view_por IsWholePOr (por_step (por_by levels)) tokens.now result }
{
    let (first, rest) = pand(alloc, levels, tokens)?;
    let (others, rest) = pands(alloc, levels, rest)?;
    Ok((make::predicate(first, others)?, rest))
}

// Reads the further terms of a predicate, each behind an `or`: (`or` and)*. Answers them and the tokens behind them.
// Predicates in parentheses nest in at most `levels` levels.
#[cycle(predicate)]
fn pands(alloc: Global, levels: usize, tokens: &[Token]) -> Result<(Vec<PAnd>, &[Token]), Fault>
    ensures shorter { IfOk result (λ x. length x.1.now ≤ length tokens.now) }
    ensures gives { Gives (λ x. (listed (map view_pand x.0.items), kinds x.1.now)) result
        (many (next is_or) (behind is_or (pand (por_by levels))) (kinds tokens.now)) }
    ensures whole { IfOk result (λ x. All IsWholePAnd x.0.items) }
{
    let mut items = Vec::new(alloc);
    let mut rest = tokens;
    'turns: while token::next_is(rest, Class::Or) {
        let (item, after) = or_pand(alloc, levels, rest)?;
        items.push(item)?;
        rest = after;
    }
    Ok((items, rest))
}

// Reads one further term of a predicate: `or` and. Answers the term and the tokens behind it.
// Predicates in parentheses nest in at most `levels` levels.
#[cycle(predicate)]
#[tactic(auto, unfolding(script_grammar::specs::Read::behind))]
fn or_pand(alloc: Global, levels: usize, tokens: &[Token]) -> Result<(PAnd, &[Token]), Fault>
    ensures { Reads view_pand IsWholePAnd (behind is_or (pand (por_by levels))) tokens.now result }
{
    let ((), rest) = token::expect(tokens, Class::Or)?;
    pand(alloc, levels, rest)
}

// Reads factors joined by `and`, the grammar's and: not (`and` not)*; answers its tree and the tokens behind it.
// Predicates in parentheses nest in at most `levels` levels.
#[cycle(predicate)]
#[tactic(auto, unfolding(script_grammar::specs::ReadPredicate::pand, script_grammar::specs::Read::chain))]
fn pand(alloc: Global, levels: usize, tokens: &[Token]) -> Result<(PAnd, &[Token]), Fault>
    ensures { Reads view_pand IsWholePAnd (pand (por_by levels)) tokens.now result }
{
    let (first, rest) = pnot(alloc, levels, tokens)?;
    let (others, rest) = pnots(alloc, levels, rest)?;
    Ok((make::predicate_term(first, others)?, rest))
}

// Reads the further factors of a term, each behind an `and`: (`and` not)*. Answers them and the tokens behind them.
// Predicates in parentheses nest in at most `levels` levels.
#[cycle(predicate)]
fn pnots(alloc: Global, levels: usize, tokens: &[Token]) -> Result<(Vec<PNot>, &[Token]), Fault>
    ensures shorter { IfOk result (λ x. length x.1.now ≤ length tokens.now) }
    ensures gives { Gives (λ x. (listed (map view_pnot x.0.items), kinds x.1.now)) result
        (many (next is_and) (behind is_and (pnot (por_by levels))) (kinds tokens.now)) }
    ensures whole { IfOk result (λ x. All IsWholePNot x.0.items) }
{
    let mut items = Vec::new(alloc);
    let mut rest = tokens;
    'turns: while token::next_is(rest, Class::And) {
        let (item, after) = and_pnot(alloc, levels, rest)?;
        items.push(item)?;
        rest = after;
    }
    Ok((items, rest))
}

// Reads one further factor of a term: `and` not. Answers the factor and the tokens behind it.
// Predicates in parentheses nest in at most `levels` levels.
#[cycle(predicate)]
#[tactic(auto, unfolding(script_grammar::specs::Read::behind))]
fn and_pnot(alloc: Global, levels: usize, tokens: &[Token]) -> Result<(PNot, &[Token]), Fault>
    ensures { Reads view_pnot IsWholePNot (behind is_and (pnot (por_by levels))) tokens.now result }
{
    let ((), rest) = token::expect(tokens, Class::And)?;
    pnot(alloc, levels, rest)
}

// Reads an atom of a predicate that may be negated, the grammar's not: `not`? atom. The tokens behind it come second.
// Predicates in parentheses nest in at most `levels` levels.
#[cycle(predicate)]
#[tactic(auto, unfolding(script_grammar::specs::ReadPredicate::pnot))]
fn pnot(alloc: Global, levels: usize, tokens: &[Token]) -> Result<(PNot, &[Token]), Fault>
    ensures { Reads view_pnot IsWholePNot (pnot (por_by levels)) tokens.now result }
{
    let (negated, rest) = token::perhaps(tokens, Class::Not);
    let (atom, rest) = patom(alloc, levels, rest)?;
    Ok((PNot { negated, atom }, rest))
}

// Reads an atom of a predicate: `true` | `false` | time | time `-` time | `(` predicate `)`.
// Answers its tree and the tokens behind it. What stands in the parentheses has at most `levels` levels.
// A fault counts the tokens from the first one that cannot go on; 0 where they are at an end.
#[cycle(predicate)]
#[tactic(auto, unfolding(script_grammar::specs::ReadPredicate::patom))]
fn patom(alloc: Global, levels: usize, tokens: &[Token]) -> Result<(PAtom, &[Token]), Fault>
    ensures { Reads view_patom IsWholePAtom (patom (por_by levels)) tokens.now result }
{
    let Some((first, rest)) = tokens.split_first() else {
        return Err(Fault::Syntax(0));
    };
    match &first.kind {
        TokenKind::Keyword(Keyword::True) => Ok((PAtom::True, rest)),
        TokenKind::Keyword(Keyword::False) => Ok((PAtom::False, rest)),
        TokenKind::Time(from) => interval(*from, rest),
        TokenKind::Symbol(Symbol::OpenRound) => {
            let (inside, rest) = por(alloc, levels, rest)?;
            let ((), rest) = token::expect(rest, Class::CloseRound)?;
            Ok((PAtom::Paren(Box::new(alloc, inside)?), rest))
        }
        _ => Err(Fault::Syntax(tokens.len())),
    }
}

// Reads what follows the first time of an atom, which is `from`: `-` and a second time, or nothing.
// Answers the atom, an interval or the one time, and the tokens behind it. A `-` without a time behind it is a fault.
#[tactic(auto, unfolding(script_grammar::specs::ReadPredicate::interval))]
fn interval(from: TimeMark, tokens: &[Token]) -> Result<(PAtom, &[Token]), Fault>
    ensures shorter { IfOk result (λ x. length x.1.now ≤ length tokens.now) }
    ensures gives { Gives (λ x. (view_patom x.0, kinds x.1.now)) result (interval from (kinds tokens.now)) }
    ensures whole { IfOk result (λ x. IsWholePAtom x.0) }
{
    match tokens {
        [
            Token {
                kind: TokenKind::Symbol(Symbol::Minus),
                ..
            },
            Token {
                kind: TokenKind::Time(to),
                ..
            },
            rest @ ..,
        ] => Ok((PAtom::Between(from, *to), rest)),
        [
            Token {
                kind: TokenKind::Symbol(Symbol::Minus),
                ..
            },
            rest @ ..,
        ] => Err(Fault::Syntax(rest.len())),
        _ => Ok((PAtom::At(from), tokens)),
    }
}
