// All tokens of a script.
ghost use Rattle.std.specs.Prelude.{◌≡◌, ◌≢◌, ◌≤◌, ◌-◌, ◌⊎◌, [], List, length, Some, None, Err, IfOk, IfErr, OnOk};
ghost use Rattle.std.specs.Prelude.{IsOkUnless};
ghost use Rattle.script_lex.specs.Tokens.{Runs, AreTokens, HasFault, IsFront};
ghost use Rattle.script_lex.specs.Gives.{IfFault, RunsInto, RunsTo, left_of, told_as};
ghost use Rattle.script_lex.specs.declared.token.Token.{Token};
ghost use Rattle.script_lex.specs.declared.token.LexFault.{LexFault};
ghost use Rattle.script_lex.specs.declared.token.LexFault.TheVariants as faults;
ghost use Rattle.script_lex.specs.declared.refusal.Refusal.TheVariants as refusals;

use crate::refusal::Refusal;
use crate::scan::token_at;
use crate::spans::after_blanks;
use crate::token::{LexFault, Token};
use liq_base::Memory;
use liq_base::limits::MAX_SCRIPT_BYTES;
use std::alloc::Global;

// Room for one token is taken at first for each so many bytes of a script. Most scripts have more bytes to a token, so
// their list never grows; room that no token fills is never touched, and where tokens are shorter the list grows.
const BYTES_A_TOKEN: usize = 3;

/// The tokens of a script, each the longest that stands at its place (`docs/language.md`, "Tokens").
///
/// It answers the list of tokens exactly where the script has one, and else the fault that stands first in it;
/// only want of memory may come in place of either.
pub fn lex(alloc: Global, text: &[u8]) -> Result<Vec<Token>, LexFault>
    ensures tokens { IfOk result (λ v. AreTokens text.now v.items) }
    ensures only { (ts : List Token) → AreTokens text.now ts
        → IsOkUnless result faults.Memory × IfOk result (λ v. v.items ≡ ts) }
    ensures fault { IfErr result (λ e. e ≢ faults.Memory → HasFault text.now e) }
    ensures only_fault { (e : LexFault) → HasFault text.now e → (result ≡ Err e) ⊎ (result ≡ Err faults.Memory) }
{
    if text.len() as u64 > MAX_SCRIPT_BYTES {
        return Err(LexFault::TextTooLong);
    }
    match tokens(alloc, text) {
        Ok(tokens) => Ok(tokens),
        Err(refusal) => Err(told_as(text.len(), refusal)),
    }
}

/// The tokens of a script as far as they go, and the fault that stands behind them; `None` if they go to the end. A
/// script that is too long has no tokens here. The error is want of memory alone.
pub fn lex_front(alloc: Global, text: &[u8]) -> Result<(Vec<Token>, Option<LexFault>), Memory>
    ensures { IfOk result (λ front. IsFront text.now front.0.items front.1) }
{
    if text.len() as u64 > MAX_SCRIPT_BYTES {
        return Ok((Vec::new(alloc), Some(LexFault::TextTooLong)));
    }
    let mut made = Vec::with_capacity(alloc, text.len() / BYTES_A_TOKEN)?;
    match read_tokens(alloc, text, &mut made) {
        Ok(()) => Ok((made, None)),
        Err(refusal) => front_of(text.len(), made, refusal),
    }
}

// The tokens of a text of `total` bytes, with the fault behind them that this refusal is. Want of memory is no fault of
// the text.
fn front_of(
    total: usize,
    made: Vec<Token>,
    refusal: Refusal,
) -> Result<(Vec<Token>, Option<LexFault>), Memory>
    requires within { left_of refusal ≤ total }
    requires small { total ≤ MAX_SCRIPT_BYTES }
    ensures made { IfOk result (λ front. front.0 ≡ made) }
    ensures stop { IfOk result (λ front. (front.1 ≡ Some (told_as total refusal)) × (refusal ≢ refusals.Memory)) }
{
    match refusal {
        Refusal::Memory => Err(Memory),
        Refusal::BadByte(_) => Ok((made, Some(told_as(total, refusal)))),
        Refusal::UnclosedString(_) => Ok((made, Some(told_as(total, refusal)))),
        Refusal::NumberTooLarge(_) => Ok((made, Some(told_as(total, refusal)))),
    }
}

// The byte of a text at which its rest begins, from 0.
fn place(text: &[u8], rest: &[u8]) -> u32
    requires within { length rest.now ≤ length text.now }
    requires small { length text.now ≤ MAX_SCRIPT_BYTES }
    ensures { result ≡ length text.now - length rest.now }
{
    (text.len() - rest.len()) as u32
}

// The fault that a refusal is in a text of `total` bytes. A refusal counts the bytes from its place to the end, and the
// fault those from the text's start to there.
fn told_as(total: usize, refusal: Refusal) -> LexFault
    requires within { left_of refusal ≤ total }
    requires small { total ≤ MAX_SCRIPT_BYTES }
    ensures { result ≡ told_as total refusal }
{
    match refusal {
        Refusal::BadByte(left) => LexFault::BadByte((total - left) as u32),
        Refusal::UnclosedString(left) => LexFault::UnclosedString((total - left) as u32),
        Refusal::NumberTooLarge(left) => LexFault::NumberTooLarge((total - left) as u32),
        Refusal::Memory => LexFault::Memory,
    }
}

// The tokens of a text that is not too long, or why the first one that cannot be read is none.
fn tokens(alloc: Global, text: &[u8]) -> Result<Vec<Token>, Refusal>
    requires { length text.now ≤ MAX_SCRIPT_BYTES }
    ensures tokens { IfOk result (λ v. Runs text.now v.items None) }
    ensures fault { IfErr result (λ e. IfFault e (RunsInto text.now)) }
    ensures within { IfErr result (λ e. left_of e ≤ length text.now) }
{
    let mut made = Vec::with_capacity(alloc, text.len() / BYTES_A_TOKEN)?;
    read_tokens(alloc, text, &mut made)?;
    Ok(made)
}

// Adds the tokens of a text that is not too long, as far as they go, to `made`, which is empty. The error says why they
// go no further.
fn read_tokens(alloc: Global, text: &[u8], made: &mut Vec<Token>) -> Result<(), Refusal>
    requires small { length text.now ≤ MAX_SCRIPT_BYTES }
    requires empty { made.old.items ≡ [] }
    ensures tokens { OnOk result (Runs text.now made.new.items None) }
    ensures fault { IfErr result (λ e. IfFault e (RunsTo text.now made.new.items)) }
    ensures within { IfErr result (λ e. left_of e ≤ length text.now) }
{
    let mut rest = after_blanks(text);
    while !rest.is_empty() {
        let (kind, after) = token_at(alloc, rest)?;
        let start = place(text, rest);
        let end = place(text, after);
        made.push(Token { kind, start, end })?;
        rest = after_blanks(after);
    }
    Ok(())
}
