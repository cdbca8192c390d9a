// Where tokens and statements begin.
ghost use Rattle.std.specs.Prelude.{◌≡◌, length};
ghost use Rattle.script_grammar.specs.Placed.{IsPlaced};
ghost use Rattle.script_grammar.specs.View.{view_script, view_part};
ghost use Rattle.script_places.specs.Starts.{start, first_token, first_at};

use script_grammar::tree::{Script, StmtPart};
use script_lex::Token;

/// The byte of a script at which a token begins, both counted from 0. A token past the end begins at the end of the
/// script, which has `total` bytes.
pub fn start(total: usize, tokens: &[Token], token: u64) -> usize
    ensures { result ≡ start total tokens.now token }
{
    if token < tokens.len() as u64 {
        tokens[token as usize].start as usize
    } else {
        total
    }
}

/// The index of the first token of a statement, which counts from 1; nothing where the script has none of this number.
pub fn first_token(script: &Script, statement: u64) -> Option<u64>
    requires { IsPlaced 0 (view_script script.now) }
    ensures { result ≡ first_token (view_script script.now) statement }
{
    if statement == 0 {
        return None;
    }
    let index = statement as usize - 1;
    if index >= script.statements.len() {
        return None;
    }
    Some(first_at(&script.statements[index].part))
}

// The index of the first token of a statement, from the token indexes that its tree has. It is that of the name or of
// `if`; for a `def`, whose name is its second token, one less.
fn first_at(part: &StmtPart) -> u64
    ensures { result ≡ first_at (view_part part.now) }
{
    match part {
        StmtPart::Bind(bind) => u64::from(bind.at),
        StmtPart::Def(def) => u64::from(def.at).saturating_sub(1),
        StmtPart::Call(call) => u64::from(call.at),
        StmtPart::If(choice) => u64::from(choice.at),
    }
}
