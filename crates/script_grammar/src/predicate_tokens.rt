//! The tokens of a predicate.
ghost use Rattle.std.specs.Prelude.{◌≡◌, ◌++◌, ◌∷◌, [], OnOk, map};
ghost use Rattle.script_grammar.specs.Spelling.{spell, token_if};
ghost use Rattle.script_grammar.specs.Pieces.{por_parts, pand_parts};
ghost use Rattle.script_grammar.specs.View.{view_por, view_pand, view_pnot, view_patom};

use crate::predicate::{PAnd, PAtom, PNot, POr};
use liq_base::Memory;
use script_lex::{Keyword, Symbol, TokenKind};

/// Appends a token. A token for which memory is refused is dropped here, so that no caller holds it at its own exits.
pub fn put(out: &mut Vec<TokenKind>, kind: TokenKind) -> Result<(), Memory>
    ensures { OnOk result (out.new.items ≡ out.old.items ++ kind ∷ []) }
{
    out.push(kind)?;
    Ok(())
}

/// Appends to `out` the token `kind`, which a script may have or leave out, if it is `present`.
pub fn put_if(out: &mut Vec<TokenKind>, kind: TokenKind, present: bool) -> Result<(), Memory>
    ensures { OnOk result (out.new.items ≡ out.old.items ++ token_if kind present) }
{
    if present { put(out, kind) } else { Ok(()) }
}

/// Appends to `out` the tokens that spell a predicate of the time.
#[cycle(predicate)]
pub fn put_por(out: &mut Vec<TokenKind>, pred: &POr) -> Result<(), Memory>
    ensures { OnOk result (out.new.items ≡ out.old.items ++ spell (view_por pred.now)) }
{
    put_por_parts(out, &pred.parts)
}

// Appends to `out` the tokens of these parts, with `or` between. No predicate of the grammar is without parts; for such
// a one it is `false`.
#[cycle(predicate)]
fn put_por_parts(out: &mut Vec<TokenKind>, parts: &[PAnd]) -> Result<(), Memory>
    ensures { OnOk result (out.new.items ≡ out.old.items ++ por_parts (map view_pand parts.now)) }
{
    match parts {
        [first, rest @ ..] => {
            put_pand(out, first)?;
            'others: for part in rest {
                put(out, TokenKind::Keyword(Keyword::Or))?;
                put_pand(out, part)?;
            }
            Ok(())
        }
        // no predicate of the grammar
        [] => { put(out, TokenKind::Keyword(Keyword::False)) }
    }
}

// Appends to `out` the tokens that spell a part of a predicate, atoms joined by `and`.
#[cycle(predicate)]
fn put_pand(out: &mut Vec<TokenKind>, pred: &PAnd) -> Result<(), Memory>
    ensures { OnOk result (out.new.items ≡ out.old.items ++ spell (view_pand pred.now)) }
{
    put_pand_parts(out, &pred.parts)
}

// Appends to `out` the tokens of these parts, with `and` between. No predicate of the grammar is without parts; for
// such a one it is `true`.
#[cycle(predicate)]
fn put_pand_parts(out: &mut Vec<TokenKind>, parts: &[PNot]) -> Result<(), Memory>
    ensures { OnOk result (out.new.items ≡ out.old.items ++ pand_parts (map view_pnot parts.now)) }
{
    match parts {
        [first, rest @ ..] => {
            put_pnot(out, first)?;
            'others: for part in rest {
                put(out, TokenKind::Keyword(Keyword::And))?;
                put_pnot(out, part)?;
            }
            Ok(())
        }
        // no predicate of the grammar
        [] => { put(out, TokenKind::Keyword(Keyword::True)) }
    }
}

// Appends to `out` the tokens that spell an atom of a predicate, behind `not` if it is negated.
#[cycle(predicate)]
fn put_pnot(out: &mut Vec<TokenKind>, pred: &PNot) -> Result<(), Memory>
    ensures { OnOk result (out.new.items ≡ out.old.items ++ spell (view_pnot pred.now)) }
{
    put_if(out, TokenKind::Keyword(Keyword::Not), pred.negated)?;
    put_patom(out, &pred.atom)
}

// Appends to `out` the tokens that spell an atom of a predicate: a truth value, a time mark, an interval or a
// predicate in parentheses.
#[cycle(predicate)]
fn put_patom(out: &mut Vec<TokenKind>, atom: &PAtom) -> Result<(), Memory>
    ensures { OnOk result (out.new.items ≡ out.old.items ++ spell (view_patom atom.now)) }
{
    match atom {
        PAtom::True => { put(out, TokenKind::Keyword(Keyword::True)) }
        PAtom::False => { put(out, TokenKind::Keyword(Keyword::False)) }
        PAtom::At(mark) => { put(out, TokenKind::Time(*mark)) }
        PAtom::Between(from, to) => {
            put(out, TokenKind::Time(*from))?;
            put(out, TokenKind::Symbol(Symbol::Minus))?;
            put(out, TokenKind::Time(*to))
        }
        PAtom::Paren(pred) => {
            put(out, TokenKind::Symbol(Symbol::OpenRound))?;
            put_por(out, pred)?;
            put(out, TokenKind::Symbol(Symbol::CloseRound))
        }
    }
}
