// Numbers with a point, and lengths in seconds.
ghost use Rattle.std.specs.Prelude.{◌≡◌, ◌<◌, ◌++◌, OnOk, codes, decimal};
ghost use Rattle.plan_picture.specs.Numbers.{fraction, further, pointed, samples_word, seconds, signed, thousandths};

use fixed_text::{Decimal, write_u64};
use liq_base::Memory;
use plan_blames::{push_number, push_plain};

const MILLION: u64 = 1_000_000;

/// Appends how long so many samples last at this rate (samples a second), in seconds, cut to milliseconds. Below a
/// millisecond it appends how many samples there are.
pub fn push_seconds(into: &mut Vec<u8>, samples: u64, rate: u32) -> Result<(), Memory>
    requires { 0 < rate }
    ensures { OnOk result (into.new.items ≡ into.old.items ++ seconds samples rate) }
{
    let whole = samples / u64::from(rate);
    let part = thousandths(samples, rate);
    if whole == 0 && part == 0 {
        return push_samples(into, samples);
    }
    push_pointed(into, whole, part * 1000)?;
    push_plain(into, b" s")
}

// The milliseconds of a length of so many samples beyond its whole seconds, cut. The rate is in samples a second.
fn thousandths(samples: u64, rate: u32) -> u64
    requires { 0 < rate }
    ensures is { result ≡ thousandths samples rate }
    ensures below { result < 1000 }
{
    samples % u64::from(rate) * 1000 / u64::from(rate)
}

// Appends a short length as a number of samples, with its unit.
fn push_samples(into: &mut Vec<u8>, samples: u64) -> Result<(), Memory>
    ensures { OnOk result (into.new.items ≡ into.old.items ++ (decimal samples ++ samples_word samples)) }
{
    write_u64(into, samples)?;
    push_samples_word(into, samples)
}

// Appends the word behind a number of samples: `sample` for one, and else `samples`.
fn push_samples_word(into: &mut Vec<u8>, samples: u64) -> Result<(), Memory>
    ensures { OnOk result (into.new.items ≡ into.old.items ++ samples_word samples) }
{
    if samples == 1 {
        push_plain(into, b" sample")
    } else {
        push_plain(into, b" samples")
    }
}

/// Appends a decimal, with at least one digit behind its point and no further zeros at its end.
pub fn push_decimal(into: &mut Vec<u8>, value: Decimal) -> Result<(), Memory>
    ensures { OnOk result (into.new.items ≡ into.old.items ++ signed value.millionths) }
{
    let size = value.millionths.unsigned_abs();
    if value.millionths < 0 {
        into.extend_from_slice(b"-")?;
    }
    push_pointed(into, size / MILLION, size % MILLION)
}

// Appends a decimal without its sign, as `2.0` or `1.25`: its whole units and its millionths.
fn push_pointed(into: &mut Vec<u8>, whole: u64, millionths: u64) -> Result<(), Memory>
    requires { millionths < 1000000 }
    ensures { OnOk result (into.new.items ≡ into.old.items ++ pointed whole millionths) }
{
    write_u64(into, whole)?;
    push_point(into, millionths)
}

// Appends the point of a decimal and the digits after it, given in millionths: at least one digit.
fn push_point(into: &mut Vec<u8>, millionths: u64) -> Result<(), Memory>
    requires { millionths < 1000000 }
    ensures { OnOk result (into.new.items ≡ into.old.items ++ (codes "." ++ fraction millionths)) }
{
    push_number(into, b".", millionths / 100_000)?;
    push_further(into, millionths % 100_000 * 10)
}

// Appends the digits of a decimal behind the first one after its point, given in millionths: at most five, without
// zeros at the end.
fn push_further(into: &mut Vec<u8>, millionths: u64) -> Result<(), Memory>
    requires { millionths < 1000000 }
    ensures { OnOk result (into.new.items ≡ into.old.items ++ further 5 millionths) }
{
    let mut rest = millionths;
    for _place in 0..5_u32 {
        if rest == 0 {
            return Ok(());
        }
        write_u64(into, rest / 100_000)?;
        rest = rest % 100_000 * 10;
    }
    Ok(())
}
