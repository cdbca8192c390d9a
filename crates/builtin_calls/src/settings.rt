// The two settings that a script makes.
ghost use Rattle.std.specs.Prelude.{◌≡◌, map};
ghost use Rattle.script_values.specs.Gives.{Gives};
ghost use Rattle.script_values.specs.View.{view_value};
ghost use Rattle.script_values.specs.Views.{view_given};
ghost use Rattle.builtin_calls.specs.Builtins.{set};
ghost use Rattle.builtin_calls.specs.Settings.{duration_of, settings_opened, rate_of, rate_within, set_duration};
ghost use Rattle.builtin_calls.specs.Settings.{set_rate, setting};

use crate::parts::{plain, plain_text};
use fixed_text::Decimal;
use liq_base::limits::{MAX_RATE, MIN_RATE};
use script_values::{Given, Machine, Stop, Value};
use std::alloc::Global;

/// `set(key, value)`: makes the setting of this key, the sample rate or the duration of a tick; any other key changes
/// nothing. `given` has the call's arguments; the value is `()`.
#[tactic(auto, unfolding(crate::specs::Builtins::set))]
pub(crate) fn set(
    alloc: Global,
    given: &mut Vec<Given>,
    machine: &mut Machine,
) -> Result<Value, Stop>
    ensures { Gives (λ v. (view_value v, machine.new)) result (set (map view_given given.old.items) machine.old) }
{
    let key = plain_text(alloc, given)?;
    let value = plain(given)?;
    setting(machine, key.as_str(), &value)
}

// Notes that this statement makes a setting, or faults where none may stand: settings come before all other statements.
// The last such statement is kept, since a fault of a tick found later names it.
fn opened(machine: &mut Machine) -> Result<(), Stop>
    ensures { Gives (λ _. machine.new) result (settings_opened machine.old) }
{
    if !machine.settings.allowed {
        return Err(Stop::BadSetting);
    }
    machine.settings.last = machine.settings.statement;
    Ok(())
}

// Reads the value of the setting of the sample rate: an int within the bounds. Another value is a bad setting.
#[tactic(auto, unfolding(crate::specs::Settings::rate_of))]
fn rate_of(value: &Value) -> Result<u32, Stop>
    ensures { Gives (λ n. n) result (rate_of (view_value value.now)) }
{
    match value {
        Value::Int(number) => rate_within(*number),
        _ => Err(Stop::BadSetting),
    }
}

/// Checks a sample rate: gives it where it is from `MIN_RATE` to `MAX_RATE` samples a second, and else the fault of a
/// bad setting.
fn rate_within(number: i64) -> Result<u32, Stop>
    ensures { Gives (λ n. n) result (rate_within number) }
{
    if number < i64::from(MIN_RATE) {
        return Err(Stop::BadSetting);
    }
    if number > i64::from(MAX_RATE) {
        return Err(Stop::BadSetting);
    }
    Ok(number as u32)
}

// Reads the value of the setting of the tick: a decimal of seconds. Another value is a bad setting. Its range is
// checked once all settings are known.
#[tactic(auto, unfolding(crate::specs::Settings::duration_of))]
fn duration_of(value: &Value) -> Result<Decimal, Stop>
    ensures { Gives (λ d. d) result (duration_of (view_value value.now)) }
{
    match value {
        Value::Decimal(number) => Ok(*number),
        _ => Err(Stop::BadSetting),
    }
}

/// Sets the sample rate of the plan, in samples a second. A fault, where settings are over or the value is no such
/// rate. The value is `()`.
#[tactic(auto, unfolding(crate::specs::Settings::set_rate))]
fn set_rate(machine: &mut Machine, value: &Value) -> Result<Value, Stop>
    ensures { Gives (λ v. (view_value v, machine.new)) result (set_rate (view_value value.now) machine.old) }
{
    opened(machine)?;
    let rate = rate_of(value)?;
    machine.plan.set_rate(rate);
    Ok(Value::Nothing)
}

/// Sets how many seconds a tick lasts. A fault, where settings are over or the value is no decimal. The value is `()`.
#[tactic(auto, unfolding(crate::specs::Settings::set_duration))]
fn set_duration(machine: &mut Machine, value: &Value) -> Result<Value, Stop>
    ensures { Gives (λ v. (view_value v, machine.new)) result (set_duration (view_value value.now) machine.old) }
{
    opened(machine)?;
    let duration = duration_of(value)?;
    machine.settings.duration = duration;
    Ok(Value::Nothing)
}

/// What `set` does, by the key: sets the sample rate, or the duration of a tick. Any other key changes nothing. The
/// value is `()`.
#[tactic(auto, unfolding(crate::specs::Settings::setting))]
fn setting(machine: &mut Machine, key: &str, value: &Value) -> Result<Value, Stop>
    ensures { Gives (λ v. (view_value v, machine.new)) result (setting key.now (view_value value.now) machine.old) }
{
    if key == "frame.audio.samplerate" {
        return set_rate(machine, value);
    }
    if key == "frame.duration" {
        return set_duration(machine, value);
    }
    Ok(Value::Nothing)
}
