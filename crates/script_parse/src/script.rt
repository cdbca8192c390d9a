// A script, or the first place that rules one out.
ghost use Rattle.std.specs.Prelude.{◌≡◌, ◌≢◌, ◌<◌, ◌^◌, ◌⊎◌, length, Err, IfOk, IfErr, IfSome, IfNone, IsOkUnless};
ghost use Rattle.script_grammar.specs.Tree.{Script as PlainScript};
ghost use Rattle.script_grammar.specs.Spelling.{spelling};
ghost use Rattle.script_grammar.specs.Placed.{IsPlaced};
ghost use Rattle.script_grammar.specs.View.{view_script};
ghost use Rattle.script_grammar.specs.Whole.{IsWhole};
ghost use Rattle.parse_base.specs.Gives.{kinds};
ghost use Rattle.script_parse.specs.Places.{opens, closes, IsDepthPlace};
ghost use Rattle.script_parse.specs.declared.fault.ParseFault.{ParseFault as FaultOfTokens};
ghost use Rattle.script_parse.specs.Answer.{Whole, IsShallow, IsFault};

use crate::fault::{ParseFault, Refusal};
use liq_base::limits::MAX_NESTING;
use parse_base::Fault;
use script_grammar::laws;
use script_grammar::tree::Script;
use script_lex::{Keyword, Symbol, Token, TokenKind};
use statement_parse::statements;
use std::alloc::Global;

/// The script that the tokens spell, those of a text (`docs/grammar.md`). It answers the script exactly where there is
/// one and brackets nest at most `MAX_NESTING` deep, each field `at` being the index of its token; and else the first
/// fault; only want of memory may come in place of either. The text itself is not read: tokens hold all that a script's
/// tree is made of.
///
/// # Errors
///
/// `Syntax`: the least token such that no script begins with the tokens up to it, or the number of tokens where only
/// more of them are missing. `TooDeep`: the first token at which more brackets are open. The lesser place decides, and
/// at equal places it is `Syntax`. `Memory`: memory was refused, or there are 2^32 tokens and more, whose places have
/// no number.
pub fn parse(alloc: Global, _text: &[u8], tokens: &[Token]) -> Result<Script, ParseFault>
    ensures spelled { IfOk result (λ s. spelling (view_script s) ≡ kinds tokens.now) }
    ensures placed { IfOk result (λ s. IsPlaced 0 (view_script s)) }
    ensures whole { IfOk result IsWhole }
    ensures shallow { IfOk result (λ s. IsShallow (kinds tokens.now)) }
    ensures only { (s : PlainScript) → spelling s ≡ kinds tokens.now → IsPlaced 0 s → IsShallow (kinds tokens.now)
        → IsOkUnless result ParseFault.Memory × IfOk result (λ found. view_script found ≡ s) }
    ensures fault { IfErr result (λ e. e ≢ ParseFault.Memory → IsFault (kinds tokens.now) e) }
    ensures only_fault { (e : FaultOfTokens) → IsFault (kinds tokens.now) e
        → (result ≡ Err e) ⊎ (result ≡ Err ParseFault.Memory) }
{
    laws::one_placed_script();
    answer(alloc, tokens)
}

// Whether a token begins one more level of nesting: an opening bracket, a name with one, `if` or `def`.
fn opens(kind: &TokenKind) -> bool
    ensures { result ≡ opens kind.now }
{
    matches!(
        kind,
        TokenKind::NameOpen(_)
            | TokenKind::Symbol(Symbol::OpenRound | Symbol::OpenSquare | Symbol::OpenCurly)
            | TokenKind::Keyword(Keyword::If | Keyword::Def)
    )
}

// Whether a token ends a level of nesting: a closing bracket, or `end`.
fn closes(kind: &TokenKind) -> bool
    ensures { result ≡ closes kind.now }
{
    matches!(
        kind,
        TokenKind::Symbol(Symbol::CloseRound | Symbol::CloseSquare | Symbol::CloseCurly)
            | TokenKind::Keyword(Keyword::End)
    )
}

// The index of the first token at which more than `MAX_NESTING` levels are open (brackets, `if`, `def`); `None` where
// there is none. Only the numbers of opened and closed levels count, whether or not they match.
fn depth_place(tokens: &[Token]) -> Option<usize>
    requires { length tokens.now < 2 ^ 32 }
    ensures found { IfSome result (λ d. IsDepthPlace (kinds tokens.now) d) }
    ensures none { IfNone result (IsShallow (kinds tokens.now)) }
{
    let mut opened: usize = 0;
    let mut closed: usize = 0;
    for (i, token) in tokens.iter().enumerate() {
        opened += usize::from(opens(&token.kind));
        closed += usize::from(closes(&token.kind));
        if opened > closed + MAX_NESTING as usize {
            return Some(i);
        }
    }
    None
}

// Reads all tokens as a script, one statement after another, with no bound on how deep they nest; or tells the index of
// the token at which syntax ends. A fault of syntax says how many tokens are left, which are counted from the end.
fn whole(alloc: Global, tokens: &[Token]) -> Result<Script, Refusal>
    requires { length tokens.now < 2 ^ 32 }
    ensures { Whole (kinds tokens.now) result }
{
    laws::reads_again();
    laws::reads_spellings();
    laws::faults_are_steady();
    match statements(alloc, tokens.len(), tokens) {
        Ok((statements, _end)) => Ok(Script { statements }),
        Err(Fault::Syntax(left)) => Err(Refusal::At(tokens.len() - left)),
        Err(Fault::Memory) => Err(Refusal::Memory),
    }
}

// The fault of tokens that nest too deep at token `d`: the tokens up to it alone are parsed, since a fault of syntax
// among them comes first.
fn front(alloc: Global, tokens: &[Token], d: usize) -> ParseFault
    requires small { length tokens.now < 2 ^ 32 }
    requires deep { IsDepthPlace (kinds tokens.now) d }
    ensures { result ≢ ParseFault.Memory → IsFault (kinds tokens.now) result }
{
    match whole(alloc, &tokens[..d + 1]) {
        Ok(_) => ParseFault::TooDeep(d as u32),
        Err(Refusal::At(k)) => {
            if k <= d {
                ParseFault::Syntax(k as u32)
            } else {
                ParseFault::TooDeep(d as u32)
            }
        }
        Err(Refusal::Memory) => ParseFault::Memory,
    }
}

// The script that the tokens spell, or why they are none: the nesting is measured before they are parsed, so that they
// are parsed to the end only where they nest well. 2^32 tokens and more are refused as if memory had run out.
fn answer(alloc: Global, tokens: &[Token]) -> Result<Script, ParseFault>
    ensures spelled { IfOk result (λ s. spelling (view_script s) ≡ kinds tokens.now) }
    ensures placed { IfOk result (λ s. IsPlaced 0 (view_script s)) }
    ensures whole { IfOk result IsWhole }
    ensures shallow { IfOk result (λ s. IsShallow (kinds tokens.now)) }
    ensures fault { IfErr result (λ e. e ≢ ParseFault.Memory → IsFault (kinds tokens.now) e) }
{
    if tokens.len() > u32::MAX as usize {
        return Err(ParseFault::Memory);
    }
    match depth_place(tokens) {
        Some(d) => Err(front(alloc, tokens, d)),
        None => match whole(alloc, tokens) {
            Ok(script) => Ok(script),
            Err(Refusal::At(k)) => Err(ParseFault::Syntax(k as u32)),
            Err(Refusal::Memory) => Err(ParseFault::Memory),
        },
    }
}
