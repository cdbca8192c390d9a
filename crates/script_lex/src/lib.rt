//! The tokens of a script, each the longest at its place.
#![tactic(auto)]

mod body;
mod lexer;
mod number;
mod refusal;
mod scan;
mod sign;
mod spans;
mod time;
mod token;
mod word;

pub use lexer::{lex, lex_front};
pub use token::{Keyword, LexFault, Symbol, Token, TokenKind};
