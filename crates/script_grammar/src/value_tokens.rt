//! The tokens of values: full values, expressions, operands, calls and `if`.
ghost use Rattle.std.specs.Prelude.{◌≡◌, ◌++◌, ◌∷◌, [], OnOk, IfOk, map};
ghost use Rattle.script_lex.specs.declared.token.TokenKind.TheVariants.{Keyword as a_keyword, Symbol as a_symbol};
ghost use Rattle.script_lex.specs.declared.token.Keyword.TheVariants as word;
ghost use Rattle.script_lex.specs.declared.token.Symbol.TheVariants as sign;
ghost use Rattle.script_grammar.specs.Spelling.{spell, each_after, literal_token, truth_token, op_token, added_token};
ghost use Rattle.script_grammar.specs.Spelling.{multiplied_token, label, wav_tokens, option_name};
ghost use Rattle.script_grammar.specs.Pieces.{each, each_behind, between_commas, in_brackets};
ghost use Rattle.script_grammar.specs.View.{listed, tuple_of, view_full, view_expr, view_and, view_not, view_compare};
ghost use Rattle.script_grammar.specs.View.{view_sum, view_added, view_product, view_multiplied, view_operand};
ghost use Rattle.script_grammar.specs.View.{view_call, view_arg, view_if};

use crate::predicate_tokens::{put, put_if, put_por};
use crate::tree::{
    self, Added, And, Arg, Call, Compare, CompareOp, Compared, Expr, Full, If, Literal, Multiplied,
    Not, Product, Sum,
};
use liq_base::{Memory, Text};
use script_lex::{Keyword, Symbol, TokenKind};
use std::alloc::Global;

/// Appends to `out` the tokens that spell a value: `-` and a number, or an expression.
#[cycle(value)]
pub fn put_full(alloc: Global, out: &mut Vec<TokenKind>, full: &Full) -> Result<(), Memory>
    ensures { OnOk result (out.new.items ≡ out.old.items ++ spell (view_full full.now)) }
{
    match full {
        Full::Minus { at: _, number } => {
            put(out, TokenKind::Symbol(Symbol::Minus))?;
            put(out, literal_token(*number))
        }
        Full::Plain(expr) => put_expr(alloc, out, expr),
    }
}

/// Appends to `out` the tokens that spell an expression, which is parts joined by `or`.
#[cycle(value)]
pub fn put_expr(alloc: Global, out: &mut Vec<TokenKind>, expr: &Expr) -> Result<(), Memory>
    ensures { OnOk result (out.new.items ≡ out.old.items ++ spell (view_expr expr.now)) }
{
    put_and(alloc, out, &expr.first)?;
    put_ands(alloc, out, &expr.rest)
}

/// Appends to `out` the tokens that spell a call, from its name to its closing bracket.
#[cycle(value)]
pub fn put_call(alloc: Global, out: &mut Vec<TokenKind>, call: &Call) -> Result<(), Memory>
    ensures { OnOk result (out.new.items ≡ out.old.items ++ spell (view_call call.now)) }
{
    put(out, TokenKind::NameOpen(call.name.copy(alloc)?))?;
    put_args(alloc, out, &call.args)?;
    put(out, TokenKind::Symbol(Symbol::CloseRound))
}

/// Appends to `out` the tokens that spell an `if`, from that word to its `end`.
#[cycle(value)]
pub fn put_choice(alloc: Global, out: &mut Vec<TokenKind>, choice: &If) -> Result<(), Memory>
    ensures { OnOk result (out.new.items ≡ out.old.items ++ spell (view_if choice.now)) }
{
    put(out, TokenKind::Keyword(Keyword::If))?;
    put_full(alloc, out, &choice.condition)?;
    put(out, TokenKind::Keyword(Keyword::Then))?;
    put_full(alloc, out, &choice.then_part)?;
    put(out, TokenKind::Keyword(Keyword::Else))?;
    put_full(alloc, out, &choice.else_part)?;
    put(out, TokenKind::Keyword(Keyword::End))
}

// The token of a number.
fn literal_token(number: Literal) -> TokenKind
    ensures { result ≡ literal_token number }
{
    match number {
        Literal::Int(value) => TokenKind::Int(value),
        Literal::Number(value) => TokenKind::Number(value),
    }
}

// The token of a truth value.
fn truth_token(value: bool) -> TokenKind
    ensures { result ≡ truth_token value }
{
    if value {
        TokenKind::Keyword(Keyword::True)
    } else {
        TokenKind::Keyword(Keyword::False)
    }
}

// The token of a comparing operator.
fn op_token(op: CompareOp) -> TokenKind
    ensures { result ≡ op_token op }
{
    match op {
        CompareOp::Equal => TokenKind::Symbol(Symbol::Equal),
        CompareOp::Differs => TokenKind::Symbol(Symbol::Differs),
        CompareOp::Less => TokenKind::Symbol(Symbol::Less),
        CompareOp::AtMost => TokenKind::Symbol(Symbol::AtMost),
        CompareOp::Greater => TokenKind::Symbol(Symbol::Greater),
        CompareOp::AtLeast => TokenKind::Symbol(Symbol::AtLeast),
    }
}

// The token of an operator of a sum: `-` or `+`.
fn added_token(minus: bool) -> TokenKind
    ensures { result ≡ added_token minus }
{
    if minus {
        TokenKind::Symbol(Symbol::Minus)
    } else {
        TokenKind::Symbol(Symbol::Plus)
    }
}

// The token of an operator of a product: `/` or `*`.
fn multiplied_token(divide: bool) -> TokenKind
    ensures { result ≡ multiplied_token divide }
{
    if divide {
        TokenKind::Symbol(Symbol::Slash)
    } else {
        TokenKind::Symbol(Symbol::Star)
    }
}

// Appends to `out` the tokens of the further parts of an expression, each behind `or`.
#[cycle(value)]
fn put_ands(alloc: Global, out: &mut Vec<TokenKind>, ands: &[And]) -> Result<(), Memory>
    ensures { OnOk result (out.new.items ≡ out.old.items ++ each_behind (a_keyword word.Or) (map view_and ands.now)) }
{
    for and in ands {
        put(out, TokenKind::Keyword(Keyword::Or))?;
        put_and(alloc, out, and)?;
    }
    Ok(())
}

// Appends to `out` the tokens of a part of an expression: comparisons with `and` between.
#[cycle(value)]
fn put_and(alloc: Global, out: &mut Vec<TokenKind>, and: &And) -> Result<(), Memory>
    ensures { OnOk result (out.new.items ≡ out.old.items ++ spell (view_and and.now)) }
{
    put_not(alloc, out, &and.first)?;
    put_nots(alloc, out, &and.rest)
}

// Appends to `out` the tokens of further comparisons, each behind `and`.
#[cycle(value)]
fn put_nots(alloc: Global, out: &mut Vec<TokenKind>, nots: &[Not]) -> Result<(), Memory>
    ensures { OnOk result (out.new.items ≡ out.old.items ++ each_behind (a_keyword word.And) (map view_not nots.now)) }
{
    for not in nots {
        put(out, TokenKind::Keyword(Keyword::And))?;
        put_not(alloc, out, not)?;
    }
    Ok(())
}

// Appends the tokens of a comparison, perhaps behind `not`.
#[cycle(value)]
fn put_not(alloc: Global, out: &mut Vec<TokenKind>, not: &Not) -> Result<(), Memory>
    ensures { OnOk result (out.new.items ≡ out.old.items ++ spell (view_not not.now)) }
{
    put_if(out, TokenKind::Keyword(Keyword::Not), not.negated)?;
    put_compare(alloc, out, &not.inner)
}

// Appends the tokens of a sum, perhaps compared with another.
#[cycle(value)]
fn put_compare(alloc: Global, out: &mut Vec<TokenKind>, compare: &Compare) -> Result<(), Memory>
    ensures { OnOk result (out.new.items ≡ out.old.items ++ spell (view_compare compare.now)) }
{
    put_sum(alloc, out, &compare.left)?;
    match &compare.right {
        None => Ok(()),
        Some(right) => {
            put(out, op_token(right.op))?;
            put_sum(alloc, out, &right.sum)
        }
    }
}

// Appends the tokens of products with `+` and `-` between.
#[cycle(value)]
fn put_sum(alloc: Global, out: &mut Vec<TokenKind>, sum: &Sum) -> Result<(), Memory>
    ensures { OnOk result (out.new.items ≡ out.old.items ++ spell (view_sum sum.now)) }
{
    put_product(alloc, out, &sum.first)?;
    put_addends(alloc, out, &sum.rest)
}

// Appends to `out` the tokens of the further products of a sum, each behind its `+` or `-`.
#[cycle(value)]
fn put_addends(alloc: Global, out: &mut Vec<TokenKind>, addends: &[Added]) -> Result<(), Memory>
    ensures { OnOk result (out.new.items ≡ out.old.items ++ each (map view_added addends.now)) }
{
    for added in addends {
        put_added(alloc, out, added)?;
    }
    Ok(())
}

// Appends the tokens of a product behind its `+` or `-`.
#[cycle(value)]
fn put_added(alloc: Global, out: &mut Vec<TokenKind>, added: &Added) -> Result<(), Memory>
    ensures { OnOk result (out.new.items ≡ out.old.items ++ spell (view_added added.now)) }
{
    put(out, added_token(added.minus))?;
    put_product(alloc, out, &added.product)
}

// Appends the tokens of operands with `*` and `/` between.
#[cycle(value)]
fn put_product(alloc: Global, out: &mut Vec<TokenKind>, product: &Product) -> Result<(), Memory>
    ensures { OnOk result (out.new.items ≡ out.old.items ++ spell (view_product product.now)) }
{
    put_operand(alloc, out, &product.first)?;
    put_factors(alloc, out, &product.rest)
}

// Appends to `out` the tokens of the further operands of a product, each behind its `*` or `/`.
#[cycle(value)]
fn put_factors(
    alloc: Global,
    out: &mut Vec<TokenKind>,
    factors: &[Multiplied],
) -> Result<(), Memory>
    ensures { OnOk result (out.new.items ≡ out.old.items ++ each (map view_multiplied factors.now)) }
{
    for multiplied in factors {
        put_multiplied(alloc, out, multiplied)?;
    }
    Ok(())
}

// Appends the tokens of an operand behind its `*` or `/`.
#[cycle(value)]
fn put_multiplied(
    alloc: Global,
    out: &mut Vec<TokenKind>,
    multiplied: &Multiplied,
) -> Result<(), Memory>
    ensures { OnOk result (out.new.items ≡ out.old.items ++ spell (view_multiplied multiplied.now)) }
{
    put(out, multiplied_token(multiplied.divide))?;
    put_operand(alloc, out, &multiplied.operand)
}

// Appends to `out` the tokens that spell an operand: a literal, a name, a call, an `if`, what stands in brackets, or a
// format.
#[cycle(value)]
fn put_operand(
    alloc: Global,
    out: &mut Vec<TokenKind>,
    operand: &tree::Operand,
) -> Result<(), Memory>
    ensures { OnOk result (out.new.items ≡ out.old.items ++ spell (view_operand operand.now)) }
{
    match operand {
        tree::Operand::Literal { at: _, value } => { put(out, literal_token(*value)) }
        tree::Operand::Str { at: _, text } => { put(out, TokenKind::Str(text.copy(alloc)?)) }
        tree::Operand::Bool { at: _, value } => { put(out, truth_token(*value)) }
        tree::Operand::Name { at: _, name } => { put(out, TokenKind::Name(name.copy(alloc)?)) }
        tree::Operand::Call(call) => put_call(alloc, out, call),
        tree::Operand::If(choice) => put_choice(alloc, out, choice),
        tree::Operand::Unit { at: _ } => {
            put(out, TokenKind::Symbol(Symbol::OpenRound))?;
            put(out, TokenKind::Symbol(Symbol::CloseRound))
        }
        tree::Operand::Paren(full) => {
            put(out, TokenKind::Symbol(Symbol::OpenRound))?;
            put_full(alloc, out, full)?;
            put(out, TokenKind::Symbol(Symbol::CloseRound))
        }
        tree::Operand::Tuple { at: _, parts } => put_tuple(alloc, out, parts),
        tree::Operand::List { at: _, parts } => put_list(alloc, out, parts),
        tree::Operand::Braces { at: _, pred } => {
            put(out, TokenKind::Symbol(Symbol::OpenCurly))?;
            put_por(out, pred)?;
            put(out, TokenKind::Symbol(Symbol::CloseCurly))
        }
        tree::Operand::Wav { at: _, size } => put_wav(alloc, out, *size),
    }
}

// Appends to `out` the tokens of the format `%wav`, with its option `(samplesize=size)` if it has one.
fn put_wav(alloc: Global, out: &mut Vec<TokenKind>, size: Option<i64>) -> Result<(), Memory>
    ensures { OnOk result (out.new.items ≡ out.old.items ++ wav_tokens size) }
{
    match size {
        None => { put(out, TokenKind::Wav) }
        Some(samples) => {
            let name = Text::from_str(alloc, "samplesize")?;
            put(out, TokenKind::Wav)?;
            put(out, TokenKind::Symbol(Symbol::OpenRound))?;
            put(out, TokenKind::Name(name))?;
            put(out, TokenKind::Symbol(Symbol::Assign))?;
            put(out, TokenKind::Int(samples))?;
            put(out, TokenKind::Symbol(Symbol::CloseRound))?;
            Ok(())
        }
    }
}

// Appends to `out` the tokens that spell a tuple: values in parentheses, with commas between.
#[cycle(value)]
fn put_tuple(alloc: Global, out: &mut Vec<TokenKind>, parts: &[Full]) -> Result<(), Memory>
    ensures { OnOk result (out.new.items ≡ out.old.items
        ++ in_brackets sign.OpenRound (map view_full parts.now) sign.CloseRound) }
{
    put(out, TokenKind::Symbol(Symbol::OpenRound))?;
    put_fulls(alloc, out, parts)?;
    put(out, TokenKind::Symbol(Symbol::CloseRound))
}

// Appends to `out` the tokens that spell a list: values in square brackets, with commas between.
#[cycle(value)]
fn put_list(alloc: Global, out: &mut Vec<TokenKind>, parts: &[Full]) -> Result<(), Memory>
    ensures { OnOk result (out.new.items ≡ out.old.items
        ++ in_brackets sign.OpenSquare (map view_full parts.now) sign.CloseSquare) }
{
    put(out, TokenKind::Symbol(Symbol::OpenSquare))?;
    put_fulls(alloc, out, parts)?;
    put(out, TokenKind::Symbol(Symbol::CloseSquare))
}

// Appends to `out` the tokens that spell values with commas between, without their brackets.
#[cycle(value)]
fn put_fulls(alloc: Global, out: &mut Vec<TokenKind>, parts: &[Full]) -> Result<(), Memory>
    ensures { OnOk result (out.new.items ≡ out.old.items ++ between_commas (map view_full parts.now)) }
{
    match parts {
        [] => Ok(()),
        [first, rest @ ..] => {
            put_full(alloc, out, first)?;
            'others: for part in rest {
                put(out, TokenKind::Symbol(Symbol::Comma))?;
                put_full(alloc, out, part)?;
            }
            Ok(())
        }
    }
}

// Appends to `out` the tokens that spell the arguments of a call, with commas between.
#[cycle(value)]
fn put_args(alloc: Global, out: &mut Vec<TokenKind>, args: &[Arg]) -> Result<(), Memory>
    ensures { OnOk result (out.new.items ≡ out.old.items ++ between_commas (map view_arg args.now)) }
{
    match args {
        [] => Ok(()),
        [first, rest @ ..] => {
            put_arg(alloc, out, first)?;
            'others: for arg in rest {
                put(out, TokenKind::Symbol(Symbol::Comma))?;
                put_arg(alloc, out, arg)?;
            }
            Ok(())
        }
    }
}

// Appends to `out` the tokens of an argument of a call, behind its label and `=` if it has one.
#[cycle(value)]
fn put_arg(alloc: Global, out: &mut Vec<TokenKind>, arg: &Arg) -> Result<(), Memory>
    ensures { OnOk result (out.new.items ≡ out.old.items ++ spell (view_arg arg.now)) }
{
    put_label(alloc, out, &arg.label)?;
    put_full(alloc, out, &arg.value)
}

// Appends to `out` an argument's label, `name`, and `=`; nothing if it has none.
fn put_label(alloc: Global, out: &mut Vec<TokenKind>, name: &Option<Text>) -> Result<(), Memory>
    ensures { OnOk result (out.new.items ≡ out.old.items ++ label name.now) }
{
    match name {
        None => Ok(()),
        Some(name) => {
            put(out, TokenKind::Name(name.copy(alloc)?))?;
            put(out, TokenKind::Symbol(Symbol::Assign))
        }
    }
}
