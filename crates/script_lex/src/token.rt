// Tokens, and why a script has none. The spellings stand in `docs/language.md`, "Tokens".
ghost use Rattle.std.specs.Prelude.{◌≡◌};
ghost use Rattle.script_lex.specs.declared.token.LexFault.TheVariants as faults;

use fixed_text::{Decimal, TimeMark};
use liq_base::{Memory, Text};
use std::alloc::{AllocError, AllocFailed};
use thiserror::Error;

/// A token, and where it stands in the script.
#[derive(Debug, Drop)]
pub struct Token {
    pub kind: TokenKind,

    /// The place of its first byte, from 0.
    pub start: u32,

    /// The place behind its last byte.
    pub end: u32,
}

/// What a token is.
#[derive(Debug, Drop)]
pub enum TokenKind {
    /// Parts joined by points, as `output.file`; no keyword.
    Name(Text),

    /// A name with a `(` directly behind it. It holds the name alone; the token ends behind the bracket.
    NameOpen(Text),

    /// Digits, at most 2^63 - 1.
    Int(i64),

    /// Digits, a point, and up to six digits, at most 10^9.
    Number(Decimal),

    /// The characters between two quotes, each escape as the character that it stands for.
    Str(Text),

    /// A mark in the week, as `5h30`.
    Time(TimeMark),

    Keyword(Keyword),

    /// `%wav`.
    Wav,

    Symbol(Symbol),
}

/// A word that is no name.
#[derive(Clone, Copy, Debug, PartialEq, Eq, Hash)]
pub enum Keyword {
    Def,
    End,
    If,
    Then,
    Else,
    True,
    False,
    And,
    Or,
    Not,
}

/// A sign of one or two bytes.
#[derive(Clone, Copy, Debug, PartialEq, Eq, Hash)]
pub enum Symbol {
    /// `=`
    Assign,
    /// `==`
    Equal,
    /// `!=`
    Differs,
    /// `<`
    Less,
    /// `<=`
    AtMost,
    /// `>`
    Greater,
    /// `>=`
    AtLeast,
    /// `+`
    Plus,
    /// `-`
    Minus,
    /// `*`
    Star,
    /// `/`
    Slash,
    /// `(`
    OpenRound,
    /// `)`
    CloseRound,
    /// `[`
    OpenSquare,
    /// `]`
    CloseSquare,
    /// `{`
    OpenCurly,
    /// `}`
    CloseCurly,
    /// `,`
    Comma,
    /// `;`
    Semicolon,
    /// `~`
    Tilde,
}

/// Why a script has no tokens. The first three carry the place of a byte, from 0. The faults are numbered as they
/// stand.
#[derive(Clone, Copy, Debug, Error, PartialEq, Eq)]
pub enum LexFault {
    /// Fault 1: no token begins at this byte, or it may not stand in its text.
    #[error("a byte that may not stand here, at {0}")]
    BadByte(u32),

    /// Fault 2: the end of the script cuts the text whose opening quote is here.
    #[error("a text without its closing quote, at {0}")]
    UnclosedString(u32),

    /// Fault 3: the number or time that begins here passes a bound.
    #[error("a number past its bound, at {0}")]
    NumberTooLarge(u32),

    /// Fault 4: the script is longer than `MAX_SCRIPT_BYTES`. It comes before the others.
    #[error("a script of more than 1048576 bytes")]
    TextTooLong,

    /// Memory was refused.
    #[error("out of memory")]
    Memory,
}

impl From<Memory> for LexFault {
    ghost from_gives = { λ _ e. e ≡ faults.Memory };

    // Refused memory is told in place of the tokens.
    fn from(_refused: Memory) -> LexFault {
        LexFault::Memory
    }
}

impl From<AllocError> for LexFault {
    ghost from_gives = { λ _ e. e ≡ faults.Memory };

    // An allocation that failed is want of memory, and told in place of the tokens.
    fn from(_refused: AllocError) -> LexFault {
        LexFault::Memory
    }
}

impl<T: Drop> From<AllocFailed<T>> for LexFault {
    ghost from_gives = { λ _ e. e ≡ faults.Memory };

    // A value for which there was no memory is dropped: want of memory is told in place of the tokens.
    fn from(_refused: AllocFailed<T>) -> LexFault {
        LexFault::Memory
    }
}
