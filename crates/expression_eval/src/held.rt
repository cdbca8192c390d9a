// Which statements are settings: a call of the builtin `set` that holds no other call.
ghost use Rattle.std.specs.Prelude.{◌≡◌, Some};
ghost use Rattle.std.specs.List.{list_any};
ghost use Rattle.eval_meaning.specs.Calls.{holds_call, is_set, is_setting, means_set};
ghost use Rattle.script_grammar.specs.declared.tree.StmtPart.TheVariants.{Call as a_call};
ghost use Rattle.script_grammar.specs.View.{view_added, view_and, view_arg, view_compare, view_expr, view_full};
ghost use Rattle.script_grammar.specs.View.{view_if, view_multiplied, view_not, view_part, view_operand, view_product};
ghost use Rattle.script_grammar.specs.View.{view_sum};
ghost use Rattle.typing_rules.specs.Kinds.{target_said};
ghost use Rattle.typing_rules.specs.Uses.{use_at};

use eval_scope::Uses;
use script_grammar::tree::{
    self, Added, And, Arg, Call, Compare, Expr, Full, If, Multiplied, Not, Product, StmtPart, Sum,
};
use typing_rules::{Builtin, Target};

/// Whether the statement is a call of the builtin `set` that has no other call in it, evaluated or not.
pub fn is_setting(uses: &Uses<'_>, part: &StmtPart) -> bool
    ensures { result ≡ is_setting uses.now.all.now (view_part part.now) }
{
    match part {
        StmtPart::Call(call) => is_setting_call(uses, call),
        StmtPart::Bind(_) | StmtPart::Def(_) | StmtPart::If(_) => false,
    }
}

// Whether a call is one of `set` that has no other call in it.
fn is_setting_call(uses: &Uses<'_>, call: &Call) -> bool
    ensures { result ≡ is_setting uses.now.all.now (view_part (a_call call.now)) }
{
    if means_set(uses, call.at) {
        return !args_hold(&call.args);
    }
    false
}

// Whether the name at token `at` means the builtin `set`.
fn means_set(uses: &Uses<'_>, at: u32) -> bool
    ensures { result ≡ means_set (target_said (use_at at uses.now.all.now)) }
{
    match uses.find(at) {
        None => false,
        Some(found) => is_set(found.target),
    }
}

// Whether a target is the builtin `set`.
fn is_set(target: Target) -> bool
    ensures { result ≡ means_set (Some target) }
{
    match target {
        Target::Builtin(name) => name == Builtin::Set,
        Target::Slot(_) | Target::Def(_) => false,
    }
}

// Whether there is a call in these arguments. `full_holds`, `expr_holds` and the like ask it of a part of an
// expression.
fn args_hold(args: &[Arg]) -> bool
    ensures { result ≡ list_any (λ x. holds_call (view_arg x)) args.now }
{
    for arg in args {
        if full_holds(&arg.value) {
            return true;
        }
    }
    false
}

// Whether a value has a call in it.
#[cycle(holds)]
fn full_holds(node: &Full) -> bool
    ensures { result ≡ holds_call (view_full node.now) }
{
    match node {
        Full::Minus { at: _, number: _ } => false,
        Full::Plain(inside) => expr_holds(inside),
    }
}

// Whether one of these values has a call in it.
#[cycle(holds)]
fn fulls_hold(parts: &[Full]) -> bool
    ensures { result ≡ list_any (λ x. holds_call (view_full x)) parts.now }
{
    for part in parts {
        if full_holds(part) {
            return true;
        }
    }
    false
}

// Whether an expression has a call in it.
#[cycle(holds)]
fn expr_holds(node: &Expr) -> bool
    ensures { result ≡ holds_call (view_expr node.now) }
{
    if and_holds(&node.first) {
        return true;
    }
    ands_hold(&node.rest)
}

// Whether one of these parts of an `or` has a call in it.
#[cycle(holds)]
fn ands_hold(parts: &[And]) -> bool
    ensures { result ≡ list_any (λ x. holds_call (view_and x)) parts.now }
{
    for part in parts {
        if and_holds(part) {
            return true;
        }
    }
    false
}

// Whether a part of an `or` has a call in it.
#[cycle(holds)]
fn and_holds(node: &And) -> bool
    ensures { result ≡ holds_call (view_and node.now) }
{
    if not_holds(&node.first) {
        return true;
    }
    nots_hold(&node.rest)
}

// Whether one of these parts of an `and` has a call in it.
#[cycle(holds)]
fn nots_hold(parts: &[Not]) -> bool
    ensures { result ≡ list_any (λ x. holds_call (view_not x)) parts.now }
{
    for part in parts {
        if not_holds(part) {
            return true;
        }
    }
    false
}

// Whether a part of an `and` has a call in it.
#[cycle(holds)]
fn not_holds(node: &Not) -> bool
    ensures { result ≡ holds_call (view_not node.now) }
{
    compare_holds(&node.inner)
}

// Whether a comparison has a call in it.
#[cycle(holds)]
fn compare_holds(node: &Compare) -> bool
    ensures { result ≡ holds_call (view_compare node.now) }
{
    match &node.right {
        None => sum_holds(&node.left),
        Some(right) => {
            if sum_holds(&node.left) {
                return true;
            }
            sum_holds(&right.sum)
        }
    }
}

// Whether a sum has a call in it.
#[cycle(holds)]
fn sum_holds(node: &Sum) -> bool
    ensures { result ≡ holds_call (view_sum node.now) }
{
    if product_holds(&node.first) {
        return true;
    }
    addends_hold(&node.rest)
}

// Whether one of these terms of a sum has a call in it.
#[cycle(holds)]
fn addends_hold(parts: &[Added]) -> bool
    ensures { result ≡ list_any (λ x. holds_call (view_added x)) parts.now }
{
    for part in parts {
        if product_holds(&part.product) {
            return true;
        }
    }
    false
}

// Whether a product has a call in it.
#[cycle(holds)]
fn product_holds(node: &Product) -> bool
    ensures { result ≡ holds_call (view_product node.now) }
{
    if operand_holds(&node.first) {
        return true;
    }
    factors_hold(&node.rest)
}

// Whether one of these factors of a product has a call in it.
#[cycle(holds)]
fn factors_hold(parts: &[Multiplied]) -> bool
    ensures { result ≡ list_any (λ x. holds_call (view_multiplied x)) parts.now }
{
    for part in parts {
        if operand_holds(&part.operand) {
            return true;
        }
    }
    false
}

// Whether an operand is a call or has one in it.
#[cycle(holds)]
fn operand_holds(node: &tree::Operand) -> bool
    ensures { result ≡ holds_call (view_operand node.now) }
{
    match node {
        tree::Operand::Literal { at: _, value: _ } => false,
        tree::Operand::Str { at: _, text: _ } => false,
        tree::Operand::Bool { at: _, value: _ } => false,
        tree::Operand::Name { at: _, name: _ } => false,
        tree::Operand::Call(_) => true,
        tree::Operand::If(inside) => if_holds(inside),
        tree::Operand::Unit { at: _ } => false,
        tree::Operand::Paren(inside) => full_holds(inside),
        tree::Operand::Tuple { at: _, parts } => fulls_hold(parts),
        tree::Operand::List { at: _, parts } => fulls_hold(parts),
        tree::Operand::Braces { at: _, pred: _ } => false,
        tree::Operand::Wav { at: _, size: _ } => false,
    }
}

// Whether an `if` has a call in it, in the condition or in a branch.
#[cycle(holds)]
fn if_holds(node: &If) -> bool
    ensures { result ≡ holds_call (view_if node.now) }
{
    if full_holds(&node.condition) {
        return true;
    }
    if full_holds(&node.then_part) {
        return true;
    }
    full_holds(&node.else_part)
}
