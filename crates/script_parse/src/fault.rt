// Why tokens are no script.
use thiserror::Error;

/// Why tokens are no script. The numbers are indexes of tokens, from 0. `docs/grammar.md`, "The place of a fault", has
/// the rule.
#[derive(Clone, Copy, Debug, PartialEq, Eq, Error)]
pub enum ParseFault {
    /// The least token up to which no script begins; or the number of tokens, where only more tokens are missing.
    #[error("no script begins with the tokens up to token {0}")]
    Syntax(u32),

    /// The first token at which brackets nest 201 deep.
    #[error("more than 200 levels are nested at token {0}")]
    TooDeep(u32),

    /// Memory was refused.
    #[error("out of memory")]
    Memory,
}

/// Why tokens are no script, with no bound on their nesting.
#[derive(Clone, Copy)]
pub enum Refusal {
    /// Memory was refused.
    Memory,

    /// The index of the token at which syntax ends; or the number of tokens, where only more are missing.
    At(usize),
}
