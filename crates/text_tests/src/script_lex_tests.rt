// Texts with their tokens, each from the rules of `docs/language.md`, "Tokens". Those with a fault are whole runs:
// `tests/lib/scripts.py`.
use crate::texts::check_same;
use fixed_text::TimeMark;
use script_lex::{LexFault, Token, TokenKind, lex};
use std::alloc::{AllocError, Global};
use std::fmt::Write;
use std::process::Abort;
use std::test::Fail;

// Appends a part of a time mark (its day, hour, minute or second), or `-` where the mark has no such part, and the
// text `behind` after it.
fn push_part(text: &mut String, value: Option<u8>, behind: &str) -> Result<(), AllocError> {
    match value {
        Some(value) => write!(text, "{value}{behind}")?,
        None => write!(text, "-{behind}")?,
    }
    Ok(())
}

// Writes a time mark as text: `Time(`, then its day, hour, minute and second, each `-` where it is not there, and
// `)`.
fn time(alloc: Global, mark: TimeMark) -> Result<String, AllocError> {
    let mut text = String::from_str(alloc, "Time(")?;
    push_part(&mut text, mark.day, ",")?;
    push_part(&mut text, mark.hour, ",")?;
    push_part(&mut text, mark.minute, ",")?;
    push_part(&mut text, mark.second, ")")?;
    Ok(text)
}

// Writes the kind of a token as text: its name, and in brackets what it holds, if anything.
fn kind(alloc: Global, kind: &TokenKind) -> Result<String, AllocError> {
    match kind {
        TokenKind::Name(name) => {
            let name = name.as_str();
            format!(in alloc; "Name({name})")
        }
        TokenKind::NameOpen(name) => {
            let name = name.as_str();
            format!(in alloc; "NameOpen({name})")
        }
        TokenKind::Int(value) => format!(in alloc; "Int({value})"),
        TokenKind::Number(value) => {
            let millionths = value.millionths;
            format!(in alloc; "Number({millionths})")
        }
        TokenKind::Str(text) => {
            let text = text.as_str();
            format!(in alloc; "Str({text})")
        }
        TokenKind::Time(mark) => time(alloc, *mark),
        TokenKind::Keyword(keyword) => format!(in alloc; "{keyword:?}"),
        TokenKind::Wav => String::from_str(alloc, "Wav"),
        TokenKind::Symbol(symbol) => format!(in alloc; "{symbol:?}"),
    }
}

// Lexes a text, and writes its tokens as text, each as its kind and its place in bytes. Where the lexer finds a fault
// it answers `no tokens`.
fn lexed(alloc: Global, source: &str) -> Result<String, AllocError> {
    match lex(alloc, source.as_bytes()) {
        Ok(tokens) => shown(alloc, &tokens),
        Err(_) => String::from_str(alloc, "no tokens"),
    }
}

// Writes tokens as text, each as its kind and its place in bytes.
fn shown(alloc: Global, tokens: &[Token]) -> Result<String, AllocError> {
    let mut text = String::new(alloc);
    for token in tokens {
        push_token(alloc, &mut text, token)?;
    }
    Ok(text)
}

// Appends a token as text: its kind, and its place in bytes.
fn push_token(alloc: Global, text: &mut String, token: &Token) -> Result<(), AllocError> {
    let kind = kind(alloc, &token.kind)?;
    let Token { start, end, .. } = token;
    write!(text, "{kind}@{start}..{end} ")?;
    Ok(())
}

// Checks each row: a text, and the tokens that the lexer makes of it, written as text.
fn check(rt: &impl Abort, alloc: Global, rows: &[(&str, &str)]) -> Result<(), Fail> {
    for row in rows {
        let (source, want) = *row;
        check_same(rt, source, &lexed(alloc, source)?, want);
    }
    Ok(())
}

const WORDS: &[(&str, &str)] = &[
    ("", ""),
    ("a.b(", "NameOpen(a.b)@0..4 "),
    ("a (", "Name(a)@0..1 OpenRound@2..3 "),
    ("_a1.B_2", "Name(_a1.B_2)@0..7 "),
    ("if(", "If@0..2 OpenRound@2..3 "),
    ("end.x", "Name(end.x)@0..5 "),
    ("ends Def", "Name(ends)@0..4 Name(Def)@5..8 "),
    (
        "def end if then else true false and or not",
        "Def@0..3 End@4..7 If@8..10 Then@11..15 Else@16..20 True@21..25 False@26..31 And@32..35 Or@36..38 Not@39..42 ",
    ),
    (
        "= == != < <= > >=",
        "Assign@0..1 Equal@2..4 Differs@5..7 Less@8..9 AtMost@10..12 Greater@13..14 AtLeast@15..17 ",
    ),
    (
        "+-*/()[]{},;~",
        "Plus@0..1 Minus@1..2 Star@2..3 Slash@3..4 OpenRound@4..5 CloseRound@5..6 OpenSquare@6..7 CloseSquare@7..8 \
        OpenCurly@8..9 CloseCurly@9..10 Comma@10..11 Semicolon@11..12 Tilde@12..13 ",
    ),
    ("=>", "Assign@0..1 Greater@1..2 "),
    ("%wave", "Wav@0..4 Name(e)@4..5 "),
    ("%wav(", "Wav@0..4 OpenRound@4..5 "),
];

const NUMBERS: &[(&str, &str)] = &[
    ("0 007", "Int(0)@0..1 Int(7)@2..5 "),
    ("9223372036854775807", "Int(9223372036854775807)@0..19 "),
    ("12.", "Number(12000000)@0..3 "),
    ("0.000001", "Number(1)@0..8 "),
    ("1000000000.", "Number(1000000000000000)@0..11 "),
    ("1.5h", "Number(1500000)@0..3 Name(h)@3..4 "),
];

const TIMES: &[(&str, &str)] = &[
    ("22h30", "Time(-,22,30,-)@0..5 "),
    ("22h30s", "Time(-,22,-,30)@0..6 "),
    ("22h30m15", "Time(-,22,30,-)@0..6 Int(15)@6..8 "),
    ("22h30x", "Time(-,22,30,-)@0..5 Name(x)@5..6 "),
    ("2h1w", "Time(-,2,1,-)@0..3 Name(w)@3..4 "),
    ("7w24h60m60s", "Time(7,24,60,60)@0..11 "),
    ("0w00h0m000s", "Time(0,0,0,0)@0..11 "),
    ("5h-7h", "Time(-,5,-,-)@0..2 Minus@2..3 Time(-,7,-,-)@3..5 "),
    ("5m30", "Time(-,-,5,-)@0..2 Int(30)@2..4 "),
    ("5s3m", "Time(-,-,-,5)@0..2 Time(-,-,3,-)@2..4 "),
];

const BLANKS: &[(&str, &str)] = &[
    ("\"ab\" ''", "Str(ab)@0..4 Str()@5..7 "),
    ("\"a'b\"'c\"d'", "Str(a'b)@0..5 Str(c\"d)@5..10 "),
    ("\"\\\"\\'\\\\\"", "Str(\"'\\)@0..8 "),
    ("\"#x\"#y", "Str(#x)@0..4 "),
    ("\"é😀\"", "Str(é😀)@0..8 "),
    ("a\r\nb\tc", "Name(a)@0..1 Name(b)@3..4 Name(c)@5..6 "),
    ("a # c é\"\nb", "Name(a)@0..1 Name(b)@10..11 "),
    ("#\n#\n1# é(", "Int(1)@4..5 "),
];

// The lexer makes the listed tokens of each text: words and signs, numbers, times, and texts with blanks and
// comments.
#[test]
fn texts_have_their_tokens(rt: HostRuntime) -> Result<(), Fail> {
    for rows in [WORDS, NUMBERS, TIMES, BLANKS] {
        check(&rt, rt.alloc(), rows)?;
    }
    Ok(())
}

// Each fault of the lexer is printed as its message.
#[test]
fn faults_are_printed(rt: HostRuntime) -> Result<(), Fail> {
    let first = LexFault::BadByte(3);
    let second = LexFault::UnclosedString(0);
    let third = LexFault::NumberTooLarge(7);
    let text = format!(in rt.alloc();
        "{first}; {second}; {third}; {}; {}",
        LexFault::TextTooLong,
        LexFault::Memory
    )?;
    assert_eq!(rt;
        text.as_str(),
        "a byte that may not stand here, at 3; a text without its closing quote, at 0; a number past its bound, at \
        7; a script of more than 1048576 bytes; out of memory"
    );
    Ok(())
}
