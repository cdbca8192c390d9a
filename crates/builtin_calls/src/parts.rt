// The values that a call's arguments give its parameters.
ghost use Rattle.std.specs.Prelude.{map};
ghost use Rattle.script_values.specs.Gives.{Gives};
ghost use Rattle.script_values.specs.View.{view_value};
ghost use Rattle.script_values.specs.Views.{view_given};
ghost use Rattle.builtin_calls.specs.Parts.{as_bool, bool_or, as_decimal, decimal_or, as_format, as_int, int_or};
ghost use Rattle.builtin_calls.specs.Parts.{one_kind, plain_argument, plain_decimal, plain_format, plain_text, as_text};
ghost use Rattle.builtin_calls.specs.Parts.{text_or};

use fixed_text::Decimal;
use liq_base::{Kind, Text};
use script_values::{Given, Stop, Value, argument};
use std::alloc::Global;

/// The first of the kinds (mono or stereo) that typing found for a call. A call that needs one has it, so an empty list
/// is stuck. Stuck is the end of evaluation to which no typed script comes.
pub(crate) fn one_kind(kinds: &[Kind]) -> Result<Kind, Stop>
    ensures { Gives (λ k. k) result (one_kind kinds.now) }
{
    match kinds {
        [] => Err(Stop::Stuck),
        [kind, ..] => Ok(*kind),
    }
}

/// Takes the first argument without a label out of a call's arguments, and gives its value. None is stuck, for typing
/// refuses it.
#[tactic(auto, unfolding(crate::specs::Parts::plain_argument))]
pub(crate) fn plain(given: &mut Vec<Given>) -> Result<Value, Stop>
    ensures { Gives (λ v. (view_value v, map view_given given.new.items)) result
        (plain_argument (map view_given given.old.items)) }
{
    match argument(given, None) {
        None => Err(Stop::Stuck),
        Some(value) => Ok(value),
    }
}

/// Takes the first argument without a label out of a call's arguments, and gives it as a text. None, or one of another
/// type, is stuck, for typing refuses it.
#[tactic(auto, unfolding(crate::specs::Parts::plain_text))]
pub(crate) fn plain_text(alloc: Global, given: &mut Vec<Given>) -> Result<Text, Stop>
    ensures { Gives (λ t. (t, map view_given given.new.items)) result (plain_text (map view_given given.old.items)) }
{
    let value = plain(given)?;
    let text = as_text(alloc, value)?;
    Ok(text)
}

/// Takes the first argument without a label out of a call's arguments, and gives it as a decimal. None, or one of
/// another type, is stuck, for typing refuses it.
#[tactic(auto, unfolding(crate::specs::Parts::plain_decimal))]
pub(crate) fn plain_decimal(given: &mut Vec<Given>) -> Result<Decimal, Stop>
    ensures { Gives (λ d. (d, map view_given given.new.items)) result (plain_decimal (map view_given given.old.items)) }
{
    let value = plain(given)?;
    let number = as_decimal(value)?;
    Ok(number)
}

/// Takes the first argument without a label out of a call's arguments, an output format: true for samples of 24 bits,
/// false for 16. None, or one of another type, is stuck.
#[tactic(auto, unfolding(crate::specs::Parts::plain_format))]
pub(crate) fn plain_format(given: &mut Vec<Given>) -> Result<bool, Stop>
    ensures { Gives (λ w. (w, map view_given given.new.items)) result (plain_format (map view_given given.old.items)) }
{
    let value = plain(given)?;
    let wide = as_format(value)?;
    Ok(wide)
}

/// Takes the argument with this label out of a call's arguments, and gives it as a bool, or the default where there is
/// none. A value of another type is stuck, for typing refuses it.
#[tactic(auto, unfolding(crate::specs::Parts::bool_or))]
pub(crate) fn bool_or(given: &mut Vec<Given>, label: &str, default: bool) -> Result<bool, Stop>
    ensures { Gives (λ b. (b, map view_given given.new.items)) result
        (bool_or label.now default (map view_given given.old.items)) }
{
    match argument(given, Some(label)) {
        None => Ok(default),
        Some(value) => {
            let truth = as_bool(value)?;
            Ok(truth)
        }
    }
}

/// Takes the argument with this label out of a call's arguments, and gives it as a decimal, or the default where there
/// is none. A value of another type is stuck, for typing refuses it.
#[tactic(auto, unfolding(crate::specs::Parts::decimal_or))]
pub(crate) fn decimal_or(
    given: &mut Vec<Given>,
    label: &str,
    default: Decimal,
) -> Result<Decimal, Stop>
    ensures { Gives (λ d. (d, map view_given given.new.items)) result
        (decimal_or label.now default (map view_given given.old.items)) }
{
    match argument(given, Some(label)) {
        None => Ok(default),
        Some(value) => {
            let number = as_decimal(value)?;
            Ok(number)
        }
    }
}

/// Takes the argument with this label out of a call's arguments, and gives it as an int, or the default where there is
/// none. A value of another type is stuck, for typing refuses it.
#[tactic(auto, unfolding(crate::specs::Parts::int_or))]
pub(crate) fn int_or(given: &mut Vec<Given>, label: &str, default: i64) -> Result<i64, Stop>
    ensures { Gives (λ n. (n, map view_given given.new.items)) result
        (int_or label.now default (map view_given given.old.items)) }
{
    match argument(given, Some(label)) {
        None => Ok(default),
        Some(value) => {
            let number = as_int(value)?;
            Ok(number)
        }
    }
}

/// Takes the argument with this label out of a call's arguments, and gives it as a text, or the default where there is
/// none. A value of another type is stuck, for typing refuses it.
#[tactic(auto, unfolding(crate::specs::Parts::text_or))]
pub(crate) fn text_or(
    alloc: Global,
    given: &mut Vec<Given>,
    label: &str,
    default: Text,
) -> Result<Text, Stop>
    ensures { Gives (λ t. (t, map view_given given.new.items)) result
        (text_or label.now default (map view_given given.old.items)) }
{
    match argument(given, Some(label)) {
        None => Ok(default),
        Some(value) => {
            let text = as_text(alloc, value)?;
            Ok(text)
        }
    }
}

/// The text of a value. A value of another type is stuck: typing refuses such a call.
#[tactic(auto, unfolding(crate::specs::Parts::as_text))]
fn as_text(alloc: Global, value: Value) -> Result<Text, Stop>
    ensures { Gives (λ t. t) result (as_text (view_value value)) }
{
    match value {
        Value::Text(text) => Ok(text.copy(alloc)?),
        _ => Err(Stop::Stuck),
    }
}

/// The number of a value that is a decimal. A value of another type is stuck: typing refuses such a call.
#[tactic(auto, unfolding(crate::specs::Parts::as_decimal))]
fn as_decimal(value: Value) -> Result<Decimal, Stop>
    ensures { Gives (λ d. d) result (as_decimal (view_value value)) }
{
    match value {
        Value::Decimal(number) => Ok(number),
        _ => Err(Stop::Stuck),
    }
}

/// The number of a value that is an int. A value of another type is stuck: typing refuses such a call.
#[tactic(auto, unfolding(crate::specs::Parts::as_int))]
fn as_int(value: Value) -> Result<i64, Stop>
    ensures { Gives (λ n. n) result (as_int (view_value value)) }
{
    match value {
        Value::Int(number) => Ok(number),
        _ => Err(Stop::Stuck),
    }
}

/// The truth of a value that is a bool. A value of another type is stuck: typing refuses such a call.
#[tactic(auto, unfolding(crate::specs::Parts::as_bool))]
fn as_bool(value: Value) -> Result<bool, Stop>
    ensures { Gives (λ b. b) result (as_bool (view_value value)) }
{
    match value {
        Value::Truth(truth) => Ok(truth),
        _ => Err(Stop::Stuck),
    }
}

/// Whether a value that is an output format has samples of 24 bits, and not of 16. Another value is stuck: typing
/// refuses such a call.
#[tactic(auto, unfolding(crate::specs::Parts::as_format))]
fn as_format(value: Value) -> Result<bool, Stop>
    ensures { Gives (λ w. w) result (as_format (view_value value)) }
{
    match value {
        Value::Format { wide } => Ok(wide),
        _ => Err(Stop::Stuck),
    }
}
