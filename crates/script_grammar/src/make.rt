// Nodes that hold a list, made of their parts.
ghost use Rattle.std.specs.Prelude.{◌≡◌, IfOk, map};
ghost use Rattle.script_grammar.specs.Tree.{Expr as an_expr, And as an_and, Sum as a_sum, Product as a_product};
ghost use Rattle.script_grammar.specs.Tree.{NamedCall as a_call, POr as a_por, PAnd as a_pand, Listed as a_list};
ghost use Rattle.script_grammar.specs.View.{listed, view_expr, view_and, view_not, view_sum, view_product, view_added};
ghost use Rattle.script_grammar.specs.View.{view_operand, view_multiplied, view_full, view_call, view_arg, view_por};
ghost use Rattle.script_grammar.specs.View.{view_pand, view_pnot};
ghost use Rattle.script_grammar.specs.ReadValue.{round_of};
ghost use Rattle.script_grammar.specs.Whole.{IsWholeExpr, IsWholeAnd, IsWholeNot, IsWholeSum, IsWholeAdded};
ghost use Rattle.script_grammar.specs.Whole.{IsWholeProduct, IsWholeMultiplied, IsWholeOperand, IsWholeFull};
ghost use Rattle.script_grammar.specs.Whole.{IsWholeCall, IsWholeArg, IsWholePOr, IsWholePAnd, IsWholePNot};
ghost use Rattle.std.specs.List.{All};

use crate::predicate::{PAnd, PNot, POr};
use crate::tree::{self, Added, And, Arg, Call, Expr, Full, Multiplied, Not, Product, Sum};
use liq_base::{Memory, Text};
use std::alloc::Global;

/// Makes an expression of its first part and of those behind an `or`.
pub fn expr(first: And, rest: Vec<And>) -> Expr
    ensures made { view_expr result ≡ an_expr (view_and first) (listed (map view_and rest.items)) }
    ensures whole { IsWholeAnd first → All IsWholeAnd rest.items → IsWholeExpr result }
{
    Expr { first, rest }
}

/// Makes a part of an expression of its first part and of those behind an `and`.
pub fn and_term(first: Not, rest: Vec<Not>) -> And
    ensures made { view_and result ≡ an_and (view_not first) (listed (map view_not rest.items)) }
    ensures whole { IsWholeNot first → All IsWholeNot rest.items → IsWholeAnd result }
{
    And { first, rest }
}

/// Makes a sum of its first product and of those behind a `+` or `-`.
pub fn sum(first: Product, rest: Vec<Added>) -> Sum
    ensures made { view_sum result ≡ a_sum (view_product first) (listed (map view_added rest.items)) }
    ensures whole { IsWholeProduct first → All IsWholeAdded rest.items → IsWholeSum result }
{
    Sum { first, rest }
}

/// Makes a product of its first operand and of those behind a `*` or `/`.
pub fn product(first: tree::Operand, rest: Vec<Multiplied>) -> Product
    ensures made { view_product result ≡ a_product (view_operand first) (listed (map view_multiplied rest.items)) }
    ensures whole { IsWholeOperand first → All IsWholeMultiplied rest.items → IsWholeProduct result }
{
    Product { first, rest }
}

/// Makes a call of a name with its arguments. `at` is the index of its first token.
pub fn call(at: u32, name: Text, args: Vec<Arg>) -> Call
    ensures made { view_call result ≡ a_call at name (listed (map view_arg args.items)) }
    ensures whole { All IsWholeArg args.items → IsWholeCall result }
{
    Call { at, name, args }
}

/// Makes a list of values in square brackets. `at` is the index of the `[`.
pub fn list(at: u32, parts: Vec<Full>) -> tree::Operand
    ensures made { view_operand result ≡ a_list at (listed (map view_full parts.items)) }
    ensures whole { All IsWholeFull parts.items → IsWholeOperand result }
{
    tree::Operand::List { at, parts }
}

/// Makes what stands in parentheses: the value `first` alone, or a tuple of it and the others. `at` is the index of the
/// `(`; a value alone keeps its own.
pub fn round(alloc: Global, at: u32, first: Full, rest: Vec<Full>) -> Result<tree::Operand, Memory>
    ensures made { IfOk result (λ p. view_operand p
        ≡ round_of at (view_full first) (listed (map view_full rest.items))) }
    ensures whole { IfOk result (λ p. IsWholeFull first → All IsWholeFull rest.items → IsWholeOperand p) }
{
    if rest.is_empty() {
        Ok(tree::Operand::Paren(Box::new(alloc, first)?))
    } else {
        let mut parts = rest;
        parts.insert(0, first)?;
        Ok(tree::Operand::Tuple { at, parts })
    }
}

/// Makes a predicate of the time of its first part and of those behind an `or`.
pub fn predicate(first: PAnd, rest: Vec<PAnd>) -> Result<POr, Memory>
    ensures made { IfOk result (λ p. view_por p ≡ a_por (view_pand first) (listed (map view_pand rest.items))) }
    ensures whole { IfOk result (λ p. IsWholePAnd first → All IsWholePAnd rest.items → IsWholePOr p) }
{
    let mut parts = rest;
    parts.insert(0, first)?;
    Ok(POr { parts })
}

/// Makes a part of a predicate of its first part and of those behind an `and`.
pub fn predicate_term(first: PNot, rest: Vec<PNot>) -> Result<PAnd, Memory>
    ensures made { IfOk result (λ p. view_pand p ≡ a_pand (view_pnot first) (listed (map view_pnot rest.items))) }
    ensures whole { IfOk result (λ p. IsWholePNot first → All IsWholePNot rest.items → IsWholePAnd p) }
{
    let mut parts = rest;
    parts.insert(0, first)?;
    Ok(PAnd { parts })
}
