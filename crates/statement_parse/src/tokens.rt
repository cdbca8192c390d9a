// Single tokens that begin a statement or a part of one.
ghost use Rattle.std.specs.Prelude.{◌≡◌, ◌<◌, IfOk, length};
ghost use Rattle.statement_parse.specs.Reads.{a_name, an_open_name};
ghost use Rattle.script_grammar.specs.ReadValue.{binds};
ghost use Rattle.parse_base.specs.Gives.{kinds, Gives};

use liq_base::Text;
use parse_base::Fault;
use script_lex::{Symbol, Token, TokenKind};

/// Whether a binding stands at the front of the tokens: a name and `=`.
pub fn at_binding(tokens: &[Token]) -> bool
    ensures { result ≡ binds (kinds tokens.now) }
{
    matches!(
        tokens,
        [
            Token {
                kind: TokenKind::Name(_),
                ..
            },
            Token {
                kind: TokenKind::Symbol(Symbol::Assign),
                ..
            },
            ..
        ]
    )
}

/// The text of the name token at the front, and the tokens behind it; a syntax fault for another token.
pub fn name(tokens: &[Token]) -> Result<(&Text, &[Token]), Fault>
    ensures shorter { IfOk result (λ x. length x.1.now < length tokens.now) }
    ensures gives { Gives (λ x. (x.0.now, kinds x.1.now)) result (a_name (kinds tokens.now)) }
{
    match tokens {
        [
            Token {
                kind: TokenKind::Name(name),
                ..
            },
            rest @ ..,
        ] => Ok((name, rest)),
        _ => Err(Fault::Syntax(tokens.len())),
    }
}

/// The text of the name token with `(` right behind it at the front, and the tokens behind it; a syntax fault for
/// another token.
pub fn open_name(tokens: &[Token]) -> Result<(&Text, &[Token]), Fault>
    ensures shorter { IfOk result (λ x. length x.1.now < length tokens.now) }
    ensures gives { Gives (λ x. (x.0.now, kinds x.1.now)) result (an_open_name (kinds tokens.now)) }
{
    match tokens {
        [
            Token {
                kind: TokenKind::NameOpen(name),
                ..
            },
            rest @ ..,
        ] => Ok((name, rest)),
        _ => Err(Fault::Syntax(tokens.len())),
    }
}
