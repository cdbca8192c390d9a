// Times of a script in samples.
ghost use Rattle.std.specs.Prelude.{◌≡◌, ◌<ℤ◌, pos};
ghost use Rattle.fixed_text.specs.Texts.{samples_in};
ghost use Rattle.script_values.specs.Gives.{Gives};
ghost use Rattle.script_values.specs.Machines.{some_millionths};
ghost use Rattle.builtin_calls.specs.Times.{chunks, overlap_samples, pitch_of, samples_of, some_samples, track_of};

use fixed_text::Decimal;
use script_values::Stop;

/// How many samples a time lasts at `rate` samples a second; a time below zero is a bad value at token `at`.
#[tactic(auto, unfolding(crate::specs::Times::samples_of))]
pub(crate) fn samples_of(at: u32, rate: u32, time: Decimal) -> Result<u64, Stop>
    ensures { Gives (λ n. n) result (samples_of at rate time) }
{
    match time.samples(rate) {
        None => Err(Stop::BadValue(at)),
        Some(samples) => Ok(samples),
    }
}

/// How many samples an overlap lasts, at least one; a shorter time is a bad value at token `at`. `rate` is in samples a
/// second.
#[tactic(auto, unfolding(crate::specs::Times::overlap_samples))]
pub(crate) fn overlap_of(at: u32, rate: u32, time: Decimal) -> Result<u64, Stop>
    ensures { Gives (λ n. n) result (overlap_samples at rate time) }
{
    if time.millionths <= 0 {
        return Err(Stop::BadValue(at));
    }
    let samples = some_samples(at, rate, time)?;
    Ok(samples)
}

/// How many samples a track lasts, or 0 for a time that is not above zero, which makes one endless track. A time above
/// zero that is shorter than one sample is a bad value at token `at`.
#[tactic(auto, unfolding(crate::specs::Times::track_of))]
pub(crate) fn track_of(at: u32, rate: u32, time: Decimal) -> Result<u64, Stop>
    ensures { Gives (λ n. n) result (track_of at rate time) }
{
    if time.millionths <= 0 {
        return Ok(0);
    }
    let samples = some_samples(at, rate, time)?;
    Ok(samples)
}

/// Checks the pitch of a wave, in hertz: gives it, or a bad value at token `at` where it is not above zero.
#[tactic(auto, unfolding(crate::specs::Times::pitch_of))]
pub(crate) fn pitch_of(at: u32, pitch: Decimal) -> Result<Decimal, Stop>
    ensures { Gives (λ d. d) result (pitch_of at pitch) }
{
    if pitch.millionths <= 0 {
        return Err(Stop::BadValue(at));
    }
    Ok(pitch)
}

/// How many whole chunks of `frame` samples, the samples of one tick, fit in so many samples. It is at least one, as a
/// buffer holds a chunk at least, and also where `frame` is 0.
pub(crate) fn chunks(samples: u64, frame: u32) -> u64
    ensures { result ≡ chunks samples frame }
{
    match samples.checked_div(u64::from(frame)) {
        None => 1,
        Some(whole) => whole.max(1),
    }
}

/// A time of zero seconds, the duration of a `blank` where none is given.
pub(crate) fn no_time() -> Decimal
    ensures { result ≡ some_millionths 0 tt }
{
    Decimal { millionths: 0 }
}

/// A time of one second, which a `buffer` collects before it plays where none is given.
pub(crate) fn one_second() -> Decimal
    ensures { result ≡ some_millionths 1000000 tt }
{
    Decimal {
        millionths: 1_000_000,
    }
}

/// A time of five seconds, the overlap of a `crossfade` where none is given.
pub(crate) fn five_seconds() -> Decimal
    ensures { result ≡ some_millionths 5000000 tt }
{
    Decimal {
        millionths: 5_000_000,
    }
}

/// A time of ten seconds, which a `buffer` holds at most where none is given.
pub(crate) fn ten_seconds() -> Decimal
    ensures { result ≡ some_millionths 10000000 tt }
{
    Decimal {
        millionths: 10_000_000,
    }
}

// How many samples a time above zero lasts; less than one is a bad value at token `at`.
fn some_samples(at: u32, rate: u32, time: Decimal) -> Result<u64, Stop>
    requires { pos 0 <ℤ time.millionths }
    ensures { Gives (λ n. n) result (some_samples at (samples_in time.millionths rate)) }
{
    match time.samples(rate) {
        None => Err(Stop::BadValue(at)),
        Some(samples) => {
            if samples == 0 {
                return Err(Stop::BadValue(at));
            }
            Ok(samples)
        }
    }
}
