// An expression that is one operand. Typing and evaluation go straight to it, without a look at the levels between, of
// which none has anything to join; and so nested evaluation stays short on the stack.
ghost use Rattle.std.specs.Prelude.{IfSome};
ghost use Rattle.script_grammar.specs.Lone.{IsLone};

use crate::tree::{Expr, Operand};

/// The operand that an expression is, if there is no operator in it; `None` if there is one at any level, from `or`
/// down to `*`.
pub fn lone_operand(expr: &Expr) -> Option<&Operand>
    ensures { IfSome result (λ p. IsLone expr.now p.now) }
{
    let and = &expr.first;
    let not = &and.first;
    let sum = &not.inner.left;
    let product = &sum.first;
    if !expr.rest.is_empty() || !and.rest.is_empty() || not.negated {
        return None;
    }
    if !sum.rest.is_empty() || !product.rest.is_empty() {
        return None;
    }
    match &not.inner.right {
        None => Some(&product.first),
        Some(_) => None,
    }
}
