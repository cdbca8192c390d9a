//! Scripts whose brackets nest 200 deep, each way of nesting in turn, parsed on the stack that a program has.
#![tactic(auto)]

use script_lex::lex;
use script_parse::parse;
use std::alloc::{AllocError, Global};
use std::io;

/// What stands before all levels; what opens a level, stands within all of them and closes a level; what stands behind
/// them; and how many levels there are. Each bracket is nested, in each place where a value or a predicate may stand in
/// it. With the brackets that stand before the levels and within them there are 200; 170 behind operators of every
/// kind, where a level takes the most stack.
type Nest = (
    &'static str,
    &'static str,
    &'static str,
    &'static str,
    &'static str,
    usize,
);

const NESTS: [Nest; 18] = [
    ("x = ", "(", "1", ")", "", 200),
    ("x = ", "(1, ", "1", ")", "", 200),
    ("x = ", "(1 + ", "1", ")", "", 200),
    ("x = ", "(a or b and not 1 < 2 + 3 * ", "1", ")", "", 170),
    ("x = ", "[", "1", "]", "", 200),
    ("x = ", "[1, ", "1", "]", "", 200),
    ("x = ", "f(", "1", ")", "", 200),
    ("x = ", "f(1, ", "1", ")", "", 200),
    ("x = ", "f(1, a=", "1", ")", "", 200),
    ("", "f(", "1", ")", "", 200),
    ("x = ", "if ", "a", " then b else c end", "", 200),
    ("x = ", "if a then ", "b", " else c end", "", 200),
    ("x = ", "if a then b else ", "c", " end", "", 200),
    ("", "if a then b else ", "c", " end", "", 200),
    ("x = {", "(", "true", ")", "}", 199),
    ("x = ", "(", "{true}", ")", "", 199),
    ("def f() = ", "(", "1", ")", " end", 199),
    ("def f(~a=", "(", "1", ")", ") = y = 1 y end", 198),
];

// Tells for each way of nesting brackets in a script whether the parser takes it at the deepest level allowed.
fn main(rt: HostRuntime) -> io::Result<()> {
    tell(&rt, rt.alloc(), &NESTS)
}

// Prints a line for each way of nesting brackets: how many levels it has, how its script begins, and whether that is
// parsed.
fn tell(rt: &impl Print, alloc: Global, nests: &[Nest]) -> io::Result<()> {
    for nest in nests {
        let text = written(alloc, nest)?;
        let told = answer(alloc, text.as_bytes());
        println!(rt; "{} {}{}: {told}", nest.5, nest.0, nest.1)?;
    }
    Ok(())
}

// Writes the script of one way of nesting brackets: what stands before, the opening of each level, what is within, the
// closing of each, and what stands behind.
fn written(alloc: Global, nest: &Nest) -> Result<String, AllocError> {
    let (before, open, within, close, behind, levels) = *nest;
    let mut text = String::from_str(alloc, before)?;
    for _ in 0..levels {
        text.push_str(open)?;
    }
    text.push_str(within)?;
    for _ in 0..levels {
        text.push_str(close)?;
    }
    text.push_str(behind)?;
    Ok(text)
}

// Lexes and parses a script, and gives a word for how that went: `parsed`, `refused` by the parser, or `not lexed`.
fn answer(alloc: Global, text: &[u8]) -> &'static str {
    match lex(alloc, text) {
        Ok(tokens) => match parse(alloc, text, &tokens) {
            Ok(_) => "parsed",
            Err(_) => "refused",
        },
        Err(_) => "not lexed",
    }
}
