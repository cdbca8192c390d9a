// Calls and their arguments.
ghost use Rattle.std.specs.Prelude.{◌≡◌, ◌<◌, ◌≤◌, ◌+◌, ◌^◌, ◌++◌, ◌∷◌, [], IfOk, IfSome, Ok, false, length, map, true};
ghost use Rattle.std.specs.Prelude.{vec_capacity, vec_len, ℕ};
ghost use Rattle.std.specs.List.{All};
ghost use Rattle.script_grammar.specs.Kinds.{is_comma, is_not};
ghost use Rattle.script_grammar.specs.Read.{Read, behind, perhaps};
ghost use Rattle.script_grammar.specs.Tree.{Tree, Many, AFull, AnArg, Arg as an_argument};
ghost use Rattle.script_grammar.specs.ReadValue.{full_by, call, args, arg, operand};
ghost use Rattle.script_grammar.specs.View.{listed, view_full, view_call, view_arg, view_operand};
ghost use Rattle.script_grammar.specs.declared.tree.Arg.{Arg};
ghost use Rattle.script_grammar.specs.Whole.{IsWholeFull, IsWholeCall, IsWholeArg, IsWholeOperand};
ghost use Rattle.parse_base.specs.Gives.{kinds, Gives, places, Reads};
ghost use Rattle.value_parse.specs.Operand.{as_call, chained, labelled, as_argument, is_bare, lone, plain, Pushes};

use crate::at::At;
use crate::logic::expr_from;
use crate::number::{argument_label, at_operator, is_bare};
use crate::operands::operand;
use crate::values::{full, in_full, lone};
use liq_base::Text;
use parse_base::Fault;
use parse_base::token::{self, Class, place};
use script_grammar::make;
use script_grammar::tree::{Arg, Call, Full, Operand};
use script_lex::{Token, TokenKind};
use std::alloc::Global;

/// Room is made for so many arguments of a call. A list makes room for four at first, which most calls leave half
/// empty, at 330 bytes an argument.
const USUAL: usize = 2;

/// Reads a call, NameOpen (argument (`,` argument)*)? `)`: its tree, and the tokens behind it. `total` counts the
/// tokens of the whole script; values nest less than `levels` deep. A fault counts the tokens from the first one that
/// cannot go on.
#[cycle(value)]
#[tactic(auto, unfolding(script_grammar::specs::ReadValue::call))]
pub fn call(
    alloc: Global,
    total: usize,
    levels: usize,
    tokens: &[Token],
) -> Result<(Call, &[Token]), Fault>
    requires within { length tokens.now ≤ total }
    requires small { total < 2 ^ 32 }
    ensures { Reads view_call IsWholeCall (call (places total) (full_by levels (places total))) tokens.now result }
{
    match tokens {
        [
            Token {
                kind: TokenKind::NameOpen(name),
                ..
            },
            after @ ..,
        ] => {
            let at = place(total, tokens);
            let mut items = Vec::with_capacity(alloc, USUAL)?;
            let read = args(alloc, total, levels, &mut items, after);
            call_of(alloc, at, name, items, read)
        }
        _ => Err(Fault::Syntax(tokens.len())),
    }
}

// Puts a call together once its arguments were read into `items`, and answers it with the tokens behind it. `at` is the
// index of its first token. `read` has those tokens, or the fault of the arguments, which is handed on.
#[inline(never)]
fn call_of<'a>(
    alloc: Global,
    at: u32,
    name: &Text,
    items: Vec<Arg>,
    read: Result<&'a [Token], Fault>,
) -> Result<(Call, &'a [Token]), Fault>
    ensures shorter { (n : ℕ) → IfOk read.entry (λ rest. length rest.now < n) → IfOk result (λ x. length x.1.now < n) }
    ensures gives { (r : Read (Tree (Many AnArg)))
        → Gives (λ rest. (listed (map view_arg items.items), kinds rest.now)) read.entry r
        → Gives (λ x. (view_call x.0, kinds x.1.now)) result (as_call at name.now r) }
    ensures whole { IfOk read.entry (λ _. All IsWholeArg items.items) → IfOk result (λ x. IsWholeCall x.0) }
{
    let rest = read?;
    let name = name.copy(alloc)?;
    Ok((make::call(at, name, items), rest))
}

// Reads what stands behind the name and `(` of a call: (argument (`,` argument)*)? `)`. The arguments are pushed to
// `items`; the tokens behind the bracket are answered. `total` counts the tokens of the whole script; values nest less
// than `levels` deep.
#[cycle(value)]
#[tactic(auto, unfolding(script_grammar::specs::ReadValue::args))]
fn args<'a>(
    alloc: Global,
    total: usize,
    levels: usize,
    items: &mut Vec<Arg>,
    tokens: &'a [Token],
) -> Result<&'a [Token], Fault>
    requires within { length tokens.now ≤ total }
    requires small { total < 2 ^ 32 }
    requires empty { items.old.items ≡ [] }
    ensures shorter { IfOk result (λ rest. length rest.now < length tokens.now) }
    ensures gives { Gives (λ rest. (listed (map view_arg items.new.items), kinds rest.now)) result
        (args (places total) (full_by levels (places total)) (kinds tokens.now)) }
    ensures whole { IfOk result (λ _. All IsWholeArg items.new.items) }
{
    let (is_closed, after) = token::perhaps(tokens, Class::CloseRound);
    if is_closed {
        return Ok(after);
    }
    let rest = some_args(alloc, total, levels, items, tokens)?;
    let ((), rest) = token::expect(rest, Class::CloseRound)?;
    Ok(rest)
}

// Reads one argument or several, argument (`,` argument)*, pushes them to `items`, and answers the tokens behind them.
// `total` counts the tokens of the whole script; values nest less than `levels` deep.
#[cycle(value)]
fn some_args<'a>(
    alloc: Global,
    total: usize,
    levels: usize,
    items: &mut Vec<Arg>,
    tokens: &'a [Token],
) -> Result<&'a [Token], Fault>
    requires within { length tokens.now ≤ total }
    requires small { total < 2 ^ 32 }
    requires empty { items.old.items ≡ [] }
    ensures shorter { IfOk result (λ rest. length rest.now < length tokens.now) }
    ensures gives { Gives (λ rest. (listed (map view_arg items.new.items), kinds rest.now)) result
        (chained is_comma (arg (places total) (full_by levels (places total))) (kinds tokens.now)) }
    ensures whole { IfOk result (λ _. All IsWholeArg items.new.items) }
{
    let mut rest = arg(alloc, total, levels, items, tokens)?;
    'turns: while token::next_is(rest, Class::Comma) {
        rest = comma_arg(alloc, total, levels, items, rest)?;
    }
    Ok(rest)
}

// Reads a further argument of a call, `,` argument, pushes it to `items`, and answers the tokens behind it. `total`
// counts the tokens of the whole script; values nest less than `levels` deep.
#[cycle(value)]
#[tactic(auto, unfolding(script_grammar::specs::Read::behind))]
fn comma_arg<'a>(
    alloc: Global,
    total: usize,
    levels: usize,
    items: &mut Vec<Arg>,
    tokens: &'a [Token],
) -> Result<&'a [Token], Fault>
    requires within { length tokens.now ≤ total }
    requires small { total < 2 ^ 32 }
    ensures shorter { IfOk result (λ rest. length rest.now < length tokens.now) }
    ensures gives { Pushes view_arg items.old.items items.new.items result
        (behind is_comma (arg (places total) (full_by levels (places total))) (kinds tokens.now)) }
    ensures whole { IfOk result (λ _. All IsWholeArg items.old.items → All IsWholeArg items.new.items) }
{
    let ((), rest) = token::expect(tokens, Class::Comma)?;
    arg(alloc, total, levels, items, rest)
}

// Reads an argument of a call: value | Name `=` value. It is pushed to `items`; the tokens behind it are answered.
// `total` counts the tokens of the whole script; values nest less than `levels` deep.
#[cycle(value)]
#[tactic(auto, using(crate::proofs::Labels::arg_labelled))]
fn arg<'a>(
    alloc: Global,
    total: usize,
    levels: usize,
    items: &mut Vec<Arg>,
    tokens: &'a [Token],
) -> Result<&'a [Token], Fault>
    requires within { length tokens.now ≤ total }
    requires small { total < 2 ^ 32 }
    ensures shorter { IfOk result (λ rest. length rest.now < length tokens.now) }
    ensures gives { Pushes view_arg items.old.items items.new.items result
        (arg (places total) (full_by levels (places total)) (kinds tokens.now)) }
    ensures whole { IfOk result (λ _. All IsWholeArg items.old.items → All IsWholeArg items.new.items) }
{
    let at = place(total, tokens);
    let (label, rest) = argument_label(alloc, tokens)?;
    labelled(alloc, total, levels, at, label, items, rest)
}

// Reads the value of an argument whose label, if it has one, was read already. The argument is pushed to `items`, and
// the tokens behind it are answered. `at` is the index of its first token. `total` counts the tokens of the whole
// script; values nest less than `levels` deep.
#[cycle(value)]
fn labelled<'a>(
    alloc: Global,
    total: usize,
    levels: usize,
    at: u32,
    label: Option<Text>,
    items: &mut Vec<Arg>,
    tokens: &'a [Token],
) -> Result<&'a [Token], Fault>
    requires within { length tokens.now ≤ total }
    requires small { total < 2 ^ 32 }
    ensures shorter { IfOk result (λ rest. length rest.now < length tokens.now) }
    ensures gives { Pushes view_arg items.old.items items.new.items result
        (labelled at label (full_by levels (places total)) (kinds tokens.now)) }
    ensures whole { IfOk result (λ _. All IsWholeArg items.old.items → All IsWholeArg items.new.items) }
{
    match bare_levels(levels, tokens) {
        None => push_arg(at, label, items, full(alloc, total, levels, tokens)),
        Some(below) => {
            items.reserve(1)?;
            push_operand(
                alloc,
                total,
                below,
                at,
                label,
                items,
                tokens,
                operand(At {
                    alloc,
                    total,
                    levels: below,
                    loose: false,
                    tokens,
                }),
            )
        }
    }
}

// How many levels of values may nest in a value that begins with its first operand, if it may nest in `levels` itself.
// `None` where it begins with `-` or `not`, or where no level is left.
fn bare_levels(levels: usize, tokens: &[Token]) -> Option<usize>
    ensures bare { IfSome result (λ below. (levels ≡ below + 1) × (is_bare (kinds tokens.now) ≡ true)) }
{
    if levels == 0 || !is_bare(tokens) {
        None
    } else {
        Some(levels - 1)
    }
}

// Pushes an argument whose first operand was read (`read`) at these tokens, and answers the tokens behind the argument.
// Mostly the operand is all of the value, which is then made where it stays. Where an operator follows, the value is
// read on. `at` is the index of its first token, `total` the count of the script's tokens.
#[inline(never)]
#[cycle(value)]
fn push_operand<'a>(
    alloc: Global,
    total: usize,
    levels: usize,
    at: u32,
    label: Option<Text>,
    items: &mut Vec<Arg>,
    tokens: &[Token],
    read: Result<(Operand, &'a [Token]), Fault>,
) -> Result<&'a [Token], Fault>
    requires within { length tokens.now ≤ total }
    requires small { total < 2 ^ 32 }
    requires lead { perhaps is_not (kinds tokens.now) ≡ Ok (false, kinds tokens.now) }
    requires room { vec_len items.old < vec_capacity items.old }
    requires read { Reads view_operand IsWholeOperand (operand false (places total) (full_by levels (places total)))
        tokens.now read }
    ensures shorter { IfOk result (λ rest. length rest.now < length tokens.now) }
    ensures gives { Pushes view_arg items.old.items items.new.items result
        (as_argument at label (plain false (places total) (full_by levels (places total)) (kinds tokens.now))) }
    ensures whole { IfOk result (λ _. All IsWholeArg items.old.items → All IsWholeArg items.new.items) }
{
    let (operand, rest) = read?;
    if at_operator(rest) {
        let first = Ok((operand, rest));
        let value = expr_from(
            At {
                alloc,
                total,
                levels,
                loose: false,
                tokens,
            },
            false,
            tokens,
            first,
        );
        push_arg(at, label, items, in_full(value))
    } else {
        push_lone(alloc, at, label, items, operand);
        Ok(rest)
    }
}

// Pushes an argument whose value is one operand without operators; room for it in `items` was made before. `at` is the
// index of its first token, and `label` its label, if it has one.
fn push_lone(alloc: Global, at: u32, label: Option<Text>, items: &mut Vec<Arg>, operand: Operand)
    requires room { vec_len items.old < vec_capacity items.old }
    ensures pushed { (x : Arg) × (items.new.items ≡ items.old.items ++ x ∷ [])
        × (view_arg x ≡ an_argument at label (lone false (view_operand operand))) }
    ensures whole { IsWholeOperand operand → All IsWholeArg items.old.items → All IsWholeArg items.new.items }
{
    items.push_reserved(argument(at, label, lone(alloc, false, operand)));
}

// Pushes an argument with the value that was read, and answers the tokens behind it. `at` is the index of its first
// token. `read` has the value and those tokens, or a fault, which is handed on.
#[inline(never)]
fn push_arg<'a>(
    at: u32,
    label: Option<Text>,
    items: &mut Vec<Arg>,
    read: Result<(Full, &'a [Token]), Fault>,
) -> Result<&'a [Token], Fault>
    ensures shorter { (n : ℕ) → IfOk read.entry (λ x. length x.1.now < n) → IfOk result (λ rest. length rest.now < n) }
    ensures gives { (r : Read (Tree AFull)) → Gives (λ x. (view_full x.0, kinds x.1.now)) read.entry r
        → Pushes view_arg items.old.items items.new.items result (as_argument at label r) }
    ensures whole { IfOk read.entry (λ x. IsWholeFull x.0)
        → IfOk result (λ _. All IsWholeArg items.old.items → All IsWholeArg items.new.items) }
{
    items.reserve(1)?;
    let (value, rest) = read?;
    items.push_reserved(argument(at, label, value));
    Ok(rest)
}

// The tree of an argument, from its label, if it has one, and its value. `at` is the index of its first token.
fn argument(at: u32, label: Option<Text>, value: Full) -> Arg
    ensures made { view_arg result ≡ an_argument at label (view_full value) }
    ensures whole { IsWholeFull value → IsWholeArg result }
{
    Arg { at, label, value }
}
