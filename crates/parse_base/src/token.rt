//! One token at the front of others, and the tokens behind it.
ghost use Rattle.std.specs.Prelude.{◌≡◌, ◌<◌, ◌≤◌, ◌^◌, IfOk, Ok, length};
ghost use Rattle.script_grammar.specs.Read.{next, expect, perhaps};
ghost use Rattle.parse_base.specs.Classes.{is_in};
ghost use Rattle.parse_base.specs.Gives.{kinds, Gives, places};

use crate::fault::Fault;
use script_lex::{Keyword, Symbol, Token, TokenKind};

/// Which tokens the parser asks for.
#[derive(Clone, Copy, Debug, PartialEq, Eq)]
pub enum Class {
    /// Any token at all.
    Any,
    /// A name.
    Name,
    /// A name with `(` behind it.
    OpenName,
    /// `=`
    Assign,
    /// `,`
    Comma,
    /// `;`
    Semicolon,
    /// `(`
    OpenRound,
    /// `)`
    CloseRound,
    /// `]`
    CloseSquare,
    /// `}`
    CloseCurly,
    /// `+` or `-`
    Added,
    /// `*` or `/`
    Multiplied,
    Def,
    End,
    If,
    Then,
    Else,
    Or,
    And,
    Not,
}

impl Class {
    /// Whether a token of this kind is one of the class for which the parser asks.
    pub fn holds(self, kind: &TokenKind) -> bool
        ensures { result ≡ is_in self kind.now }
    {
        match self {
            Class::Any => true,
            Class::Name => matches!(kind, TokenKind::Name(_)),
            Class::OpenName => matches!(kind, TokenKind::NameOpen(_)),
            Class::Assign => matches!(kind, TokenKind::Symbol(Symbol::Assign)),
            Class::Comma => matches!(kind, TokenKind::Symbol(Symbol::Comma)),
            Class::Semicolon => matches!(kind, TokenKind::Symbol(Symbol::Semicolon)),
            Class::OpenRound => matches!(kind, TokenKind::Symbol(Symbol::OpenRound)),
            Class::CloseRound => matches!(kind, TokenKind::Symbol(Symbol::CloseRound)),
            Class::CloseSquare => matches!(kind, TokenKind::Symbol(Symbol::CloseSquare)),
            Class::CloseCurly => matches!(kind, TokenKind::Symbol(Symbol::CloseCurly)),
            Class::Added => matches!(kind, TokenKind::Symbol(Symbol::Plus | Symbol::Minus)),
            Class::Multiplied => matches!(kind, TokenKind::Symbol(Symbol::Star | Symbol::Slash)),
            Class::Def => matches!(kind, TokenKind::Keyword(Keyword::Def)),
            Class::End => matches!(kind, TokenKind::Keyword(Keyword::End)),
            Class::If => matches!(kind, TokenKind::Keyword(Keyword::If)),
            Class::Then => matches!(kind, TokenKind::Keyword(Keyword::Then)),
            Class::Else => matches!(kind, TokenKind::Keyword(Keyword::Else)),
            Class::Or => matches!(kind, TokenKind::Keyword(Keyword::Or)),
            Class::And => matches!(kind, TokenKind::Keyword(Keyword::And)),
            Class::Not => matches!(kind, TokenKind::Keyword(Keyword::Not)),
        }
    }
}

/// The index, from 0, of the token at which reading stands: the first of `tokens`, which are those left of `total`.
pub fn place(total: usize, tokens: &[Token]) -> u32
    requires within { length tokens.now ≤ total }
    requires small { total < 2 ^ 32 }
    ensures { result ≡ places total (length (kinds tokens.now)) }
{
    (total - tokens.len()) as u32
}

/// Whether a token of this class, such as a name or a comma, stands first.
pub fn next_is(tokens: &[Token], class: Class) -> bool
    ensures { result ≡ next (is_in class) (kinds tokens.now) }
{
    match tokens {
        [first, ..] => class.holds(&first.kind),
        [] => false,
    }
}

/// Reads one token, which must be of this class, and returns the tokens behind it; it makes no tree, so `()` stands.
/// Any other token, or none, is a fault there, which counts the tokens that are left.
pub fn expect(tokens: &[Token], class: Class) -> Result<((), &[Token]), Fault>
    ensures shorter { IfOk result (λ x. length x.1.now < length tokens.now) }
    ensures gives { Gives (λ x. (tt, kinds x.1.now)) result (expect (is_in class) (kinds tokens.now)) }
{
    match tokens {
        [first, rest @ ..] if class.holds(&first.kind) => Ok(((), rest)),
        _ => Err(Fault::Syntax(tokens.len())),
    }
}

/// Reads one token if it is of this class. `true` comes with the tokens behind it, and `false` with all the tokens.
pub fn perhaps(tokens: &[Token], class: Class) -> (bool, &[Token])
    ensures shorter { length result.1.now ≤ length tokens.now }
    ensures gives { perhaps (is_in class) (kinds tokens.now) ≡ Ok (result.0, kinds result.1.now) }
{
    match tokens {
        [first, rest @ ..] if class.holds(&first.kind) => (true, rest),
        _ => (false, tokens),
    }
}
