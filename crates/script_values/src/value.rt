// Values: what an expression means.
ghost use Rattle.std.specs.Prelude.{◌≡◌, ℕ, ◌+◌, ◌<◌, ◌^◌, IfOk, map, min};
ghost use Rattle.script_values.specs.Values.{ListValue as a_list, TupleValue as a_tuple, many, size};
ghost use Rattle.script_values.specs.View.{view_value};

use fixed_text::Decimal;
use liq_base::{Memory, Text};
use std::alloc::Global;
use std::rc::Rc;
use time_pred::SharedPred;

/// A value of a script.
#[derive(Debug, Drop)]
pub enum Value {
    /// An int.
    Int(i64),

    /// A decimal.
    Decimal(Decimal),

    /// A text.
    Text(Rc<Text>),

    /// A bool.
    Truth(bool),

    /// The value of `()`, of an output and of a setting.
    Nothing,

    /// The format that `%wav` names, of samples of 24 bits where it is wide, else of 16.
    Format {
        /// Whether the samples have 24 bits.
        wide: bool,
    },

    /// A predicate on the time of the week.
    Pred(SharedPred),

    /// A source, by the number of its node.
    Source(u32),

    /// A list.
    Listed(Vec<Value>),

    /// A tuple.
    Tuple(Vec<Value>),
}

/// The size of a value, or `u64::MAX` where it is more: 1, and for a list or a tuple the sizes of its parts besides. A
/// name for the value costs so much work. It counts without regard to what a text or a predicate holds.
#[cycle(size)]
pub fn size(value: &Value) -> u64
    ensures { result ≡ min (size (view_value value.now)) u64.MAX }
{
    match value {
        Value::Listed(parts) => sizes(parts).saturating_add(1),
        Value::Tuple(parts) => sizes(parts).saturating_add(1),
        _ => 1,
    }
}

/// A copy of a value of a script. A text and a predicate are shared with it; the parts of lists and tuples are copied.
#[cycle(copy)]
pub fn copy(alloc: Global, value: &Value) -> Result<Value, Memory>
    ensures { IfOk result (λ copy. view_value copy ≡ view_value value.now) }
{
    match value {
        Value::Int(number) => Ok(Value::Int(*number)),
        Value::Decimal(number) => Ok(Value::Decimal(*number)),
        Value::Text(text) => Ok(Value::Text(text.clone()?)),
        Value::Truth(truth) => Ok(Value::Truth(*truth)),
        Value::Nothing => Ok(Value::Nothing),
        Value::Format { wide } => Ok(Value::Format { wide: *wide }),
        Value::Pred(pred) => Ok(Value::Pred(pred.share()?)),
        Value::Source(node) => Ok(Value::Source(*node)),
        Value::Listed(parts) => Ok(Value::Listed(copies(alloc, parts)?)),
        Value::Tuple(parts) => Ok(Value::Tuple(copies(alloc, parts)?)),
    }
}

/// A list of a script, as a value, with these parts.
pub fn listed(parts: Vec<Value>) -> Value
    ensures { view_value result ≡ a_list (many (map view_value parts.items)) }
{
    Value::Listed(parts)
}

/// A tuple of a script, as a value, with these parts.
pub fn tuple(parts: Vec<Value>) -> Value
    ensures { view_value result ≡ a_tuple (many (map view_value parts.items)) }
{
    Value::Tuple(parts)
}

/// The sum of the sizes of the parts of a list or tuple, or `u64::MAX` where it is more.
#[cycle(size)]
fn sizes(parts: &[Value]) -> u64
    ensures { result ≡ min (size (many (map view_value parts.now))) u64.MAX }
{
    let mut sum: u64 = 0;
    for part in parts {
        sum = sum.saturating_add(size(part));
    }
    sum
}

/// Copies of the parts of a list or tuple, in order.
#[cycle(copy)]
fn copies(alloc: Global, parts: &[Value]) -> Result<Vec<Value>, Memory>
    ensures { IfOk result (λ copies. map view_value copies.items ≡ map view_value parts.now) }
{
    let mut copies = Vec::with_capacity(alloc, parts.len())?;
    for part in parts {
        copies.push(copy(alloc, part)?)?;
    }
    Ok(copies)
}
