// The tokens of a script.
ghost use Rattle.std.specs.Prelude.{◌≡◌, ◌<◌, ℕ, List, length, OnOk, IfOk, codes};
ghost use Rattle.liq_base.specs.declared.limits.TheConstants.{MAX_SCRIPT_BYTES};
ghost use Rattle.station_facts.specs.Members.{Adds, each, list_member, number_member, object};
ghost use Rattle.station_facts.specs.Tokens.{AreTold, fault_members, kind_word, stop_members, text_item, token_array};
ghost use Rattle.std.specs.Prelude.{◌++◌};

use crate::members::{Out, begin, begin_list, end, end_list, push_item, push_number};
use json::Writer;
use liq_base::Memory;
use script_lex::{LexFault, Token, TokenKind, lex_front};
use std::alloc::Global;

/// Tells as one object of JSON the tokens of a script, up to the first fault, and that fault if there is one.
/// An `Err` is want of memory alone.
pub fn tell_tokens(alloc: Global, text: &[u8]) -> Result<Vec<u8>, Memory>
    ensures { IfOk result (λ told. AreTold text.now told.items) }
{
    let (tokens, stop) = lex_front(alloc, text)?;
    let mut out = Writer::new(Vec::new(alloc));
    push_front(&mut out, &tokens, stop)?;
    Ok(out.into_inner())
}

/// Tells of a script that is longer than a script may be: no token, and fault 4. Its text need not be read for that.
pub fn tell_too_long(alloc: Global) -> Result<Vec<u8>, Memory>
    ensures { IfOk result (λ told. (text : List ℕ) → MAX_SCRIPT_BYTES < length text → AreTold text told.items) }
{
    let mut out = Writer::new(Vec::new(alloc));
    let none = Vec::new(alloc);
    push_front(&mut out, &none, Some(LexFault::TextTooLong))?;
    Ok(out.into_inner())
}

// Writes the JSON object of a script: its tokens, and the fault at which they end, if there is one.
fn push_front(out: &mut Out, tokens: &[Token], stop: Option<LexFault>) -> Result<(), Memory>
    ensures { OnOk result (Adds out.old out.new
        (object (list_member (codes "tokens") token_array tokens.now ++ stop_members stop))) }
{
    begin(out)?;
    begin_list(out, "tokens")?;
    push_each_token(out, tokens)?;
    end_list(out)?;
    push_stop(out, stop)?;
    end(out)
}

// Writes each token of a script, as an item of a list.
fn push_each_token(out: &mut Out, tokens: &[Token]) -> Result<(), Memory>
    ensures { OnOk result (Adds out.old out.new (each token_array tokens.now)) }
{
    for token in tokens {
        push_token(out, token)?;
    }
    Ok(())
}

// Writes a token of a script as a JSON list: its kind, its first byte, the byte after its last one, and its text, if
// it has one.
fn push_token(out: &mut Out, token: &Token) -> Result<(), Memory>
    ensures { OnOk result (Adds out.old out.new (token_array token.now)) }
{
    out.begin_array()?;
    out.string(kind_word(&token.kind))?;
    out.u64(u64::from(token.start))?;
    out.u64(u64::from(token.end))?;
    push_text(out, &token.kind)?;
    out.end_array()?;
    Ok(())
}

// The word by which a kind of token of a script is told.
fn kind_word(kind: &TokenKind) -> &'static str
    ensures { result.now ≡ kind_word kind.now }
{
    match kind {
        TokenKind::Name(_) => "name",
        TokenKind::NameOpen(_) => "open",
        TokenKind::Int(_) => "int",
        TokenKind::Number(_) => "number",
        TokenKind::Str(_) => "text",
        TokenKind::Time(_) => "time",
        TokenKind::Keyword(_) => "keyword",
        TokenKind::Wav => "wav",
        TokenKind::Symbol(_) => "sign",
    }
}

// Writes the text that a token stands for, a name or a string; nothing for another token.
fn push_text(out: &mut Out, kind: &TokenKind) -> Result<(), Memory>
    ensures { OnOk result (Adds out.old out.new (text_item kind.now)) }
{
    match kind {
        TokenKind::Name(text) => push_item(out, text.as_str()),
        TokenKind::NameOpen(text) => push_item(out, text.as_str()),
        TokenKind::Str(text) => push_item(out, text.as_str()),
        _ => Ok(()),
    }
}

// Writes the members for the fault at which the tokens of a script end; nothing if there is none.
fn push_stop(out: &mut Out, stop: Option<LexFault>) -> Result<(), Memory>
    ensures { OnOk result (Adds out.old out.new (stop_members stop)) }
{
    match stop {
        Some(fault) => push_fault(out, fault),
        None => Ok(()),
    }
}

// Writes the member `fault`, the number of a fault, and `at`, the byte of the script at which it is, if it has one.
// Want of memory is no fault of the script, so nothing is written for it.
fn push_fault(out: &mut Out, fault: LexFault) -> Result<(), Memory>
    ensures { OnOk result (Adds out.old out.new (fault_members fault)) }
{
    match fault {
        LexFault::BadByte(at) => push_placed(out, 1, at),
        LexFault::UnclosedString(at) => push_placed(out, 2, at),
        LexFault::NumberTooLarge(at) => push_placed(out, 3, at),
        LexFault::TextTooLong => push_number(out, "fault", 4),
        LexFault::Memory => Ok(()),
    }
}

// Writes the members `fault` and `at`: the number of a fault, and the byte of the script at which it is.
fn push_placed(out: &mut Out, number: u64, at: u32) -> Result<(), Memory>
    ensures { OnOk result (Adds out.old out.new
        (number_member (codes "fault") number ++ number_member (codes "at") at)) }
{
    push_number(out, "fault", number)?;
    push_number(out, "at", u64::from(at))
}
