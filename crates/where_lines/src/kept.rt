// What was read of a script, kept for the next line.
ghost use Rattle.std.specs.Prelude.{List, ℕ};
ghost use Rattle.where_lines.specs.Kept.{IsKept};

use script_eval::Sources;
use script_lex::Token;

/// What was read of a script for the lines before.
#[derive(Drop)]
pub struct Kept {
    /// Its tokens.
    pub tokens: Option<Vec<Token>>,

    /// Its plan, and the calls that make its sources.
    pub sources: Option<Sources>,
}

/// What is kept before the first line: nothing.
pub fn nothing() -> Kept
    ensures { (text : List ℕ) → IsKept text result }
{
    Kept {
        tokens: None,
        sources: None,
    }
}
