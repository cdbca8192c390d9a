// The arithmetic of a script.
ghost use Rattle.std.specs.Prelude.{◌≡◌, ◌*ℤ◌, ◌+ℤ◌, ◌-ℤ◌, ◌≤ℤ◌, pos, negsuc, neg_ℤ, int_div};
ghost use Rattle.script_values.specs.Gives.{Gives};
ghost use Rattle.script_values.specs.Numbers.{added, both, compared, decimal_at, either, is_so, int_at, literal_value};
ghost use Rattle.script_values.specs.Numbers.{multiplied, negative, opposite, plus_or_minus, quotient, quotient_at};
ghost use Rattle.script_values.specs.Numbers.{truth_of};
ghost use Rattle.script_values.specs.View.{view_value};

use crate::{Stop, Value};
use fixed_text::Decimal;
use script_grammar::tree::{CompareOp, Literal};

/// The value of a number that stands in the text of a script: an int or a decimal.
pub fn literal(number: Literal) -> Value
    ensures { view_value result ≡ literal_value number }
{
    match number {
        Literal::Int(value) => Value::Int(value),
        Literal::Number(value) => Value::Decimal(value),
    }
}

/// The value of a number behind the minus at token `at`: an int or a decimal, or a bad value out of range.
#[tactic(auto, unfolding(crate::specs::Numbers::negative))]
pub fn negative(at: u32, number: Literal) -> Result<Value, Stop>
    ensures { Gives (λ v. view_value v) result (negative at number) }
{
    match number {
        Literal::Int(value) => int(at, -i128::from(value)),
        Literal::Number(value) => decimal(at, -i128::from(value.millionths)),
    }
}

/// The value of `+`, or of `-` with `minus`, over two ints or two decimals; a bad value at the operator's token `at`
/// out of range. Other values are stuck, for typing refuses them.
#[tactic(auto, unfolding(crate::specs::Numbers::added))]
pub fn added(minus: bool, at: u32, left: &Value, right: &Value) -> Result<Value, Stop>
    ensures { Gives (λ v. view_value v) result (added minus at (view_value left.now) (view_value right.now)) }
{
    match (left, right) {
        (Value::Int(a), Value::Int(b)) => int_sum(minus, at, *a, *b),
        (Value::Decimal(a), Value::Decimal(b)) => decimal_sum(minus, at, *a, *b),
        _ => Err(Stop::Stuck),
    }
}

/// The value of `or` over two truth values; both were evaluated before. Other values are stuck, for typing refuses
/// them.
#[tactic(auto, unfolding(crate::specs::Numbers::either))]
pub fn either(left: &Value, right: &Value) -> Result<Value, Stop>
    ensures { Gives (λ v. view_value v) result (either (view_value left.now) (view_value right.now)) }
{
    match (left, right) {
        (Value::Truth(a), Value::Truth(b)) => Ok(Value::Truth(*a || *b)),
        _ => Err(Stop::Stuck),
    }
}

/// The value of `and` over two truth values; both were evaluated before. Other values are stuck, for typing refuses
/// them.
#[tactic(auto, unfolding(crate::specs::Numbers::both))]
pub fn both(left: &Value, right: &Value) -> Result<Value, Stop>
    ensures { Gives (λ v. view_value v) result (both (view_value left.now) (view_value right.now)) }
{
    match (left, right) {
        (Value::Truth(a), Value::Truth(b)) => Ok(Value::Truth(*a && *b)),
        _ => Err(Stop::Stuck),
    }
}

/// The value of `not` over a truth value. Another value is stuck, for typing refuses it.
#[tactic(auto, unfolding(crate::specs::Numbers::opposite))]
pub fn opposite(value: &Value) -> Result<Value, Stop>
    ensures { Gives (λ v. view_value v) result (opposite (view_value value.now)) }
{
    match value {
        Value::Truth(truth) => Ok(Value::Truth(!*truth)),
        _ => Err(Stop::Stuck),
    }
}

/// The truth of the value of a condition, by which `if` goes on. A value of another type is stuck, for typing refuses
/// it.
#[tactic(auto, unfolding(crate::specs::Numbers::truth_of))]
pub fn truth_of(value: &Value) -> Result<bool, Stop>
    ensures { Gives (λ b. b) result (truth_of (view_value value.now)) }
{
    match value {
        Value::Truth(truth) => Ok(*truth),
        _ => Err(Stop::Stuck),
    }
}

/// The value of `*`, or of `/` with `divide`, over two ints or two decimals, rounded toward zero (decimals to a
/// millionth). By 0 and out of range it is a bad value at the operator's token `at`.
#[tactic(auto, unfolding(crate::specs::Numbers::multiplied))]
pub fn multiplied(divide: bool, at: u32, left: &Value, right: &Value) -> Result<Value, Stop>
    ensures { Gives (λ v. view_value v) result (multiplied divide at (view_value left.now) (view_value right.now)) }
{
    match (left, right) {
        (Value::Int(a), Value::Int(b)) => {
            if divide {
                int_quotient(at, *a, *b)
            } else {
                int_product(at, *a, *b)
            }
        }
        (Value::Decimal(a), Value::Decimal(b)) => {
            if divide {
                decimal_quotient(at, *a, *b)
            } else {
                decimal_product(at, *a, *b)
            }
        }
        _ => Err(Stop::Stuck),
    }
}

/// The value of a comparison of two ints or of two decimals: whether the relation of the operator holds. Other values
/// are stuck, for typing refuses them.
#[tactic(auto, unfolding(crate::specs::Numbers::compared))]
pub fn compared(op: CompareOp, left: &Value, right: &Value) -> Result<Value, Stop>
    ensures { Gives (λ v. view_value v) result (compared op (view_value left.now) (view_value right.now)) }
{
    match (left, right) {
        (Value::Int(a), Value::Int(b)) => Ok(Value::Truth(holds(op, *a, *b))),
        (Value::Decimal(a), Value::Decimal(b)) => {
            Ok(Value::Truth(holds(op, a.millionths, b.millionths)))
        }
        _ => Err(Stop::Stuck),
    }
}

// An int as a value of a script, or a bad value at token `at`, that of the operator, if it has more than 64 bits.
fn int(at: u32, number: i128) -> Result<Value, Stop>
    ensures { Gives (λ v. view_value v) result (int_at at number) }
{
    if number < -9_223_372_036_854_775_808 {
        return Err(Stop::BadValue(at));
    }
    if number > 9_223_372_036_854_775_807 {
        return Err(Stop::BadValue(at));
    }
    Ok(Value::Int(number as i64))
}

// The decimal of this number of millionths as a value, or a bad value at token `at`, that of the operator, beyond 10^15
// either way.
fn decimal(at: u32, millionths: i128) -> Result<Value, Stop>
    ensures { Gives (λ v. view_value v) result (decimal_at at millionths) }
{
    if millionths < -1_000_000_000_000_000 {
        return Err(Stop::BadValue(at));
    }
    if millionths > 1_000_000_000_000_000 {
        return Err(Stop::BadValue(at));
    }
    Ok(Value::Decimal(Decimal {
        millionths: millionths as i64,
    }))
}

// The sum of two ints, or with `minus` their difference; a bad value at the operator's token `at` beyond 64 bits.
fn int_sum(minus: bool, at: u32, a: i64, b: i64) -> Result<Value, Stop>
    ensures { Gives (λ v. view_value v) result (int_at at (plus_or_minus minus a b)) }
{
    if minus {
        int(at, i128::from(a) - i128::from(b))
    } else {
        int(at, i128::from(a) + i128::from(b))
    }
}

// The sum of two decimals, or with `minus` their difference; a bad value at the operator's token `at` out of range.
fn decimal_sum(minus: bool, at: u32, a: Decimal, b: Decimal) -> Result<Value, Stop>
    ensures { Gives (λ v. view_value v) result (decimal_at at (plus_or_minus minus a.millionths b.millionths)) }
{
    if minus {
        decimal(at, i128::from(a.millionths) - i128::from(b.millionths))
    } else {
        decimal(at, i128::from(a.millionths) + i128::from(b.millionths))
    }
}

// The quotient of `a` and `b`, rounded toward zero; `None` if `b` is 0. For decimals `a` is a number of 64 bits times a
// million.
#[tactic(auto, unfolding(crate::specs::Numbers::quotient))]
fn divided(a: i128, b: i64) -> Option<i128>
    requires low { negsuc 9223372036854775807999999 ≤ℤ a }
    requires high { a ≤ℤ pos 9223372036854775808000000 }
    ensures { result ≡ quotient a b }
{
    if b == 0 {
        return None;
    }
    Some(a / i128::from(b))
}

/// The quotient of two ints, rounded toward zero; a bad value at the operator's token `at` by 0 or beyond 64 bits.
fn int_quotient(at: u32, a: i64, b: i64) -> Result<Value, Stop>
    ensures { Gives (λ v. view_value v) result (quotient_at at (int_at at) (quotient a b)) }
{
    match divided(i128::from(a), b) {
        None => Err(Stop::BadValue(at)),
        Some(number) => int(at, number),
    }
}

/// The quotient of two decimals, rounded toward zero to a millionth; a bad value at the operator's token `at` by 0 or
/// out of range.
fn decimal_quotient(at: u32, a: Decimal, b: Decimal) -> Result<Value, Stop>
    ensures { Gives (λ v. view_value v) result
        (quotient_at at (decimal_at at) (quotient (a.millionths *ℤ pos 1000000) b.millionths)) }
{
    match divided(i128::from(a.millionths) * 1_000_000, b.millionths) {
        None => Err(Stop::BadValue(at)),
        Some(millionths) => decimal(at, millionths),
    }
}

/// The product of two ints; a bad value at the operator's token `at` beyond 64 bits.
fn int_product(at: u32, a: i64, b: i64) -> Result<Value, Stop>
    ensures { Gives (λ v. view_value v) result (int_at at (a *ℤ b)) }
{
    int(at, i128::from(a) * i128::from(b))
}

/// The product of two numbers of millionths: in millionths of a millionth. It has 128 bits, so it fits.
fn product(a: i64, b: i64) -> i128
    ensures { result ≡ a *ℤ b }
{
    i128::from(a) * i128::from(b)
}

/// The product of two numbers of millionths, in millionths again: rounded toward zero.
fn in_units(millionths: i128) -> i128
    ensures { result ≡ int_div millionths (pos 1000000) }
{
    millionths / 1_000_000
}

/// The product of two decimals, rounded toward zero to a millionth; a bad value at the operator's token `at` out of
/// range.
fn decimal_product(at: u32, a: Decimal, b: Decimal) -> Result<Value, Stop>
    ensures { Gives (λ v. view_value v) result (decimal_at at (int_div (a.millionths *ℤ b.millionths) (pos 1000000))) }
{
    decimal(at, in_units(product(a.millionths, b.millionths)))
}

/// Whether two whole numbers are in the relation of a comparison operator, such as `<`.
fn holds(op: CompareOp, a: i64, b: i64) -> bool
    ensures { result ≡ is_so op a b }
{
    match op {
        CompareOp::Equal => a == b,
        CompareOp::Differs => a != b,
        CompareOp::Less => a < b,
        CompareOp::AtMost => a <= b,
        CompareOp::Greater => b < a,
        CompareOp::AtLeast => b <= a,
    }
}
