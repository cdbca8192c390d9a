// The names that values use: full values, expressions, operands, calls and `if`.
ghost use Rattle.std.specs.Prelude.{◌≡◌, OnOk, map};
ghost use Rattle.script_grammar.specs.View.{view_full, view_expr, view_and, view_not, view_compare, view_sum};
ghost use Rattle.script_grammar.specs.View.{view_added, view_product, view_multiplied, view_operand, view_call};
ghost use Rattle.script_grammar.specs.View.{view_arg, view_if};
ghost use Rattle.typing_rules.specs.Scoping.{names};
ghost use Rattle.name_scope.specs.Noted.{names_each, noted, with_names};
ghost use Rattle.name_scope.specs.Seen.{both_scopes};

use crate::notes::Notes;
use crate::scope::Scopes;
use liq_base::Memory;
use script_grammar::tree::{
    self, Added, And, Arg, Call, Compare, Expr, Full, If, Multiplied, Not, Product, Sum,
};
use std::alloc::Global;

/// Adds to `notes` what each name in a full value, an expression or a number behind a minus, stands for, or its fault.
/// It fails only where memory is refused.
#[cycle(value)]
pub fn note_full(
    alloc: Global,
    scopes: Scopes<'_, '_>,
    notes: &mut Notes,
    full: &Full,
) -> Result<(), Memory>
    ensures { OnOk result (noted notes.new
        ≡ with_names (noted notes.old) (names (both_scopes scopes.entry) (view_full full.now))) }
{
    match full {
        Full::Minus { at: _, number: _ } => Ok(()),
        Full::Plain(expr) => note_expr(alloc, scopes, notes, expr),
    }
}

/// Adds to `notes` what each name in an expression stands for, or its fault. It fails only where memory is refused.
#[cycle(value)]
pub fn note_expr(
    alloc: Global,
    scopes: Scopes<'_, '_>,
    notes: &mut Notes,
    expr: &Expr,
) -> Result<(), Memory>
    ensures { OnOk result (noted notes.new
        ≡ with_names (noted notes.old) (names (both_scopes scopes.entry) (view_expr expr.now))) }
{
    note_and(alloc, scopes, notes, &expr.first)?;
    note_ands(alloc, scopes, notes, &expr.rest)?;
    Ok(())
}

/// Adds to `notes` what the name of a call stands for, with the faults of its arguments, and then what each name in
/// the arguments stands for. It fails only where memory is refused.
#[cycle(value)]
pub fn note_call(
    alloc: Global,
    scopes: Scopes<'_, '_>,
    notes: &mut Notes,
    call: &Call,
) -> Result<(), Memory>
    ensures { OnOk result (noted notes.new
        ≡ with_names (noted notes.old) (names (both_scopes scopes.entry) (view_call call.now))) }
{
    notes.add_call(alloc, scopes, call.at, &call.name, &call.args)?;
    note_args(alloc, scopes, notes, &call.args)?;
    Ok(())
}

/// Adds to `notes` what each name in an `if` stands for, or its fault, in the order of its parts. It fails only where
/// memory is refused.
#[cycle(value)]
pub fn note_choice(
    alloc: Global,
    scopes: Scopes<'_, '_>,
    notes: &mut Notes,
    choice: &If,
) -> Result<(), Memory>
    ensures { OnOk result (noted notes.new
        ≡ with_names (noted notes.old) (names (both_scopes scopes.entry) (view_if choice.now))) }
{
    note_full(alloc, scopes, notes, &choice.condition)?;
    note_full(alloc, scopes, notes, &choice.then_part)?;
    note_full(alloc, scopes, notes, &choice.else_part)?;
    Ok(())
}

// Adds to `notes` what each name in the parts behind an `or` stands for, or its fault.
// A name is looked up in `scopes`, the inner one first. It fails only where memory is refused.
#[cycle(value)]
fn note_ands(
    alloc: Global,
    scopes: Scopes<'_, '_>,
    notes: &mut Notes,
    ands: &[And],
) -> Result<(), Memory>
    ensures { OnOk result (noted notes.new
        ≡ with_names (noted notes.old) (names_each (both_scopes scopes.entry) (map view_and ands.now))) }
{
    for and in ands {
        note_and(alloc, scopes, notes, and)?;
    }
    Ok(())
}

// Adds to `notes` what each name in parts joined by `and` stands for, or its fault.
// A name is looked up in `scopes`, the inner one first. It fails only where memory is refused.
#[cycle(value)]
fn note_and(
    alloc: Global,
    scopes: Scopes<'_, '_>,
    notes: &mut Notes,
    and: &And,
) -> Result<(), Memory>
    ensures { OnOk result (noted notes.new
        ≡ with_names (noted notes.old) (names (both_scopes scopes.entry) (view_and and.now))) }
{
    note_not(alloc, scopes, notes, &and.first)?;
    note_nots(alloc, scopes, notes, &and.rest)?;
    Ok(())
}

// Adds to `notes` what each name in the parts behind an `and` stands for, or its fault.
// A name is looked up in `scopes`, the inner one first. It fails only where memory is refused.
#[cycle(value)]
fn note_nots(
    alloc: Global,
    scopes: Scopes<'_, '_>,
    notes: &mut Notes,
    nots: &[Not],
) -> Result<(), Memory>
    ensures { OnOk result (noted notes.new
        ≡ with_names (noted notes.old) (names_each (both_scopes scopes.entry) (map view_not nots.now))) }
{
    for not in nots {
        note_not(alloc, scopes, notes, not)?;
    }
    Ok(())
}

// Adds to `notes` what each name in a comparison, perhaps behind `not`, stands for, or its fault.
// A name is looked up in `scopes`, the inner one first. It fails only where memory is refused.
#[cycle(value)]
fn note_not(
    alloc: Global,
    scopes: Scopes<'_, '_>,
    notes: &mut Notes,
    not: &Not,
) -> Result<(), Memory>
    ensures { OnOk result (noted notes.new
        ≡ with_names (noted notes.old) (names (both_scopes scopes.entry) (view_not not.now))) }
{
    note_compare(alloc, scopes, notes, &not.inner)
}

// Adds to `notes` what each name in a sum, and in the one that it is compared with, stands for, or its fault.
// A name is looked up in `scopes`, the inner one first. It fails only where memory is refused.
#[cycle(value)]
fn note_compare(
    alloc: Global,
    scopes: Scopes<'_, '_>,
    notes: &mut Notes,
    compare: &Compare,
) -> Result<(), Memory>
    ensures { OnOk result (noted notes.new
        ≡ with_names (noted notes.old) (names (both_scopes scopes.entry) (view_compare compare.now))) }
{
    note_sum(alloc, scopes, notes, &compare.left)?;
    match &compare.right {
        None => Ok(()),
        Some(right) => {
            note_sum(alloc, scopes, notes, &right.sum)?;
            Ok(())
        }
    }
}

// Adds to `notes` what each name in products joined by `+` and `-` stands for, or its fault.
// A name is looked up in `scopes`, the inner one first. It fails only where memory is refused.
#[cycle(value)]
fn note_sum(
    alloc: Global,
    scopes: Scopes<'_, '_>,
    notes: &mut Notes,
    sum: &Sum,
) -> Result<(), Memory>
    ensures { OnOk result (noted notes.new
        ≡ with_names (noted notes.old) (names (both_scopes scopes.entry) (view_sum sum.now))) }
{
    note_product(alloc, scopes, notes, &sum.first)?;
    note_addends(alloc, scopes, notes, &sum.rest)?;
    Ok(())
}

// Adds to `notes` what each name in the products behind a `+` or `-` stands for, or its fault.
// A name is looked up in `scopes`, the inner one first. It fails only where memory is refused.
#[cycle(value)]
fn note_addends(
    alloc: Global,
    scopes: Scopes<'_, '_>,
    notes: &mut Notes,
    addends: &[Added],
) -> Result<(), Memory>
    ensures { OnOk result (noted notes.new
        ≡ with_names (noted notes.old) (names_each (both_scopes scopes.entry) (map view_added addends.now))) }
{
    for added in addends {
        note_added(alloc, scopes, notes, added)?;
    }
    Ok(())
}

// Adds to `notes` what each name in a product behind a `+` or `-` stands for, or its fault.
// A name is looked up in `scopes`, the inner one first. It fails only where memory is refused.
#[cycle(value)]
fn note_added(
    alloc: Global,
    scopes: Scopes<'_, '_>,
    notes: &mut Notes,
    added: &Added,
) -> Result<(), Memory>
    ensures { OnOk result (noted notes.new
        ≡ with_names (noted notes.old) (names (both_scopes scopes.entry) (view_added added.now))) }
{
    note_product(alloc, scopes, notes, &added.product)
}

// Adds to `notes` what each name in operands joined by `*` and `/` stands for, or its fault.
// A name is looked up in `scopes`, the inner one first. It fails only where memory is refused.
#[cycle(value)]
fn note_product(
    alloc: Global,
    scopes: Scopes<'_, '_>,
    notes: &mut Notes,
    product: &Product,
) -> Result<(), Memory>
    ensures { OnOk result (noted notes.new
        ≡ with_names (noted notes.old) (names (both_scopes scopes.entry) (view_product product.now))) }
{
    note_operand(alloc, scopes, notes, &product.first)?;
    note_factors(alloc, scopes, notes, &product.rest)?;
    Ok(())
}

// Adds to `notes` what each name in the operands behind a `*` or `/` stands for, or its fault.
// A name is looked up in `scopes`, the inner one first. It fails only where memory is refused.
#[cycle(value)]
fn note_factors(
    alloc: Global,
    scopes: Scopes<'_, '_>,
    notes: &mut Notes,
    factors: &[Multiplied],
) -> Result<(), Memory>
    ensures { OnOk result (noted notes.new
        ≡ with_names (noted notes.old) (names_each (both_scopes scopes.entry) (map view_multiplied factors.now))) }
{
    for multiplied in factors {
        note_multiplied(alloc, scopes, notes, multiplied)?;
    }
    Ok(())
}

// Adds to `notes` what each name in an operand behind a `*` or `/` stands for, or its fault.
// A name is looked up in `scopes`, the inner one first. It fails only where memory is refused.
#[cycle(value)]
fn note_multiplied(
    alloc: Global,
    scopes: Scopes<'_, '_>,
    notes: &mut Notes,
    multiplied: &Multiplied,
) -> Result<(), Memory>
    ensures { OnOk result (noted notes.new
        ≡ with_names (noted notes.old) (names (both_scopes scopes.entry) (view_multiplied multiplied.now))) }
{
    note_operand(alloc, scopes, notes, &multiplied.operand)
}

// Adds to `notes` what each name in an operand stands for, or its fault. Literals, a `{..}` predicate, `()` and
// `%wav` have no names of the script.
// A name is looked up in `scopes`, the inner one first. It fails only where memory is refused.
#[cycle(value)]
fn note_operand(
    alloc: Global,
    scopes: Scopes<'_, '_>,
    notes: &mut Notes,
    operand: &tree::Operand,
) -> Result<(), Memory>
    ensures { OnOk result (noted notes.new
        ≡ with_names (noted notes.old) (names (both_scopes scopes.entry) (view_operand operand.now))) }
{
    match operand {
        tree::Operand::Literal { at: _, value: _ } => Ok(()),
        tree::Operand::Str { at: _, text: _ } => Ok(()),
        tree::Operand::Bool { at: _, value: _ } => Ok(()),
        tree::Operand::Name { at, name } => notes.add_value(scopes, *at, name),
        tree::Operand::Call(call) => note_call(alloc, scopes, notes, call),
        tree::Operand::If(choice) => note_choice(alloc, scopes, notes, choice),
        tree::Operand::Unit { at: _ } => Ok(()),
        tree::Operand::Paren(full) => note_full(alloc, scopes, notes, full),
        tree::Operand::Tuple { at: _, parts } => note_fulls(alloc, scopes, notes, parts),
        tree::Operand::List { at: _, parts } => note_fulls(alloc, scopes, notes, parts),
        tree::Operand::Braces { at: _, pred: _ } => Ok(()),
        tree::Operand::Wav { at: _, size: _ } => Ok(()),
    }
}

// Adds to `notes` what each name in these values, one after another, stands for, or its fault.
// A name is looked up in `scopes`, the inner one first. It fails only where memory is refused.
#[cycle(value)]
fn note_fulls(
    alloc: Global,
    scopes: Scopes<'_, '_>,
    notes: &mut Notes,
    parts: &[Full],
) -> Result<(), Memory>
    ensures { OnOk result (noted notes.new
        ≡ with_names (noted notes.old) (names_each (both_scopes scopes.entry) (map view_full parts.now))) }
{
    for part in parts {
        note_full(alloc, scopes, notes, part)?;
    }
    Ok(())
}

// Adds to `notes` what each name in the arguments of a call stands for, or its fault.
// A name is looked up in `scopes`, the inner one first. It fails only where memory is refused.
#[cycle(value)]
fn note_args(
    alloc: Global,
    scopes: Scopes<'_, '_>,
    notes: &mut Notes,
    args: &[Arg],
) -> Result<(), Memory>
    ensures { OnOk result (noted notes.new
        ≡ with_names (noted notes.old) (names_each (both_scopes scopes.entry) (map view_arg args.now))) }
{
    for arg in args {
        note_arg(alloc, scopes, notes, arg)?;
    }
    Ok(())
}

// Adds to `notes` what each name in the value of an argument stands for, or its fault.
// A name is looked up in `scopes`, the inner one first. It fails only where memory is refused.
#[cycle(value)]
fn note_arg(
    alloc: Global,
    scopes: Scopes<'_, '_>,
    notes: &mut Notes,
    arg: &Arg,
) -> Result<(), Memory>
    ensures { OnOk result (noted notes.new
        ≡ with_names (noted notes.old) (names (both_scopes scopes.entry) (view_arg arg.now))) }
{
    note_full(alloc, scopes, notes, &arg.value)
}
