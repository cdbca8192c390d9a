// The time of a clock.
ghost use Rattle.std.specs.Prelude.{◌≡◌, ◌<◌, ◌≤◌, ◌+◌, ◌/◌, ◌%◌, ℕ, suc, false, nat_eq};

use fixed_text::WeekSecond;

/// The second of the week of a clock's instant, how many samples of this second are over, and how many instants of its
/// tick. No count of instants is kept.
#[derive(Clone, Copy, Debug)]
pub struct WeekTime {
    /// Samples a second, above 0.
    pub rate: u32,

    /// The second of the week.
    pub second: WeekSecond,

    /// How many samples of this second are over, below the rate.
    pub samples: u32,

    /// Instants of a tick, above 0.
    pub frame: u32,

    /// How many instants of this tick are over, below the frame.
    pub place: u32,
    ghost within: { samples < rate },
    ghost inside: { place < frame },
}

impl WeekTime {
    ghost use Rattle.node_states.specs.Times.{TimeStands};

    /// The time of a clock's first instant, the beginning of second `start` of the week; `rate` is in samples a
    /// second, and a tick has `frame` samples.
    pub fn new(start: WeekSecond, rate: u32, frame: u32) -> WeekTime
        requires rate { 0 < rate }
        requires frame { 0 < frame }
        ensures rate { result.rate ≡ rate }
        ensures frame { result.frame ≡ frame }
        ensures stands { TimeStands start.second 0 result }
    {
        WeekTime {
            rate,
            second: start,
            samples: 0,
            frame,
            place: 0,
        }
    }

    /// Whether the instant of this time is the first of a tick of the clock.
    pub fn begins_tick(self) -> bool
        ensures { result ≡ nat_eq self.place 0 }
    {
        self.place == 0
    }

    /// How many instants after this one lie within `seconds` seconds, of which the second of this time is the first.
    /// A count above u32 is cut to the largest u32.
    pub fn seconds_left(self, seconds: u32) -> u32
        requires { 0 < seconds }
        ensures { (start n j : ℕ) → TimeStands start n self → j ≤ result
            → (n + j) / self.rate < n / self.rate + seconds }
    {
        let later = (seconds - 1).saturating_mul(self.rate);
        (self.rate - 1 - self.samples).saturating_add(later)
    }

    /// How many instants of the tick come after the instant of this time.
    pub fn tick_left(self) -> u32
        ensures { (start n j : ℕ) → TimeStands start n self → 0 < j → j ≤ result
            → nat_eq ((n + j) % self.frame) 0 ≡ false }
    {
        self.frame - 1 - self.place
    }

    /// The time of the instant that comes `count` instants later, at most a second.
    pub fn later(self, count: u32) -> WeekTime
        requires { count ≤ self.rate }
        ensures rate { result.rate ≡ self.rate }
        ensures frame { result.frame ≡ self.frame }
        ensures stands { (start n : ℕ) → TimeStands start n self → TimeStands start (n + count) result }
    {
        let place = place_later(self.place, self.frame, count);
        let left = self.rate - self.samples;
        if count < left {
            return WeekTime {
                rate: self.rate,
                second: self.second,
                samples: self.samples + count,
                frame: self.frame,
                place,
            };
        }
        WeekTime {
            rate: self.rate,
            second: next_second(self.second),
            samples: count - left,
            frame: self.frame,
            place,
        }
    }

    /// The time of the clock's next instant, one sample later.
    pub fn next(self) -> WeekTime
        ensures rate { result.rate ≡ self.rate }
        ensures frame { result.frame ≡ self.frame }
        ensures stands { (start n : ℕ) → TimeStands start n self → TimeStands start (suc n) result }
    {
        let place = next_place(self.place, self.frame);
        if self.samples + 1 < self.rate {
            return WeekTime {
                rate: self.rate,
                second: self.second,
                samples: self.samples + 1,
                frame: self.frame,
                place,
            };
        }
        WeekTime {
            rate: self.rate,
            second: next_second(self.second),
            samples: 0,
            frame: self.frame,
            place,
        }
    }
}

// The second of the week after this one; after the last comes the first.
fn next_second(at: WeekSecond) -> WeekSecond
    ensures { result.second ≡ (at.second + 1) % 604800 }
{
    WeekSecond {
        second: (at.second + 1) % 604_800,
    }
}

// The place of the next instant in its tick, counted from 0; a tick has `frame` instants.
fn next_place(place: u32, frame: u32) -> u32
    requires { place < frame }
    ensures small { result < frame }
    ensures next { (n : ℕ) → place ≡ n % frame → result ≡ suc n % frame }
{
    if place + 1 < frame {
        return place + 1;
    }
    0
}

// The place in its tick of the instant `count` instants later, counted from 0; a tick has `frame` instants.
fn place_later(place: u32, frame: u32, count: u32) -> u32
    requires { place < frame }
    ensures small { result < frame }
    ensures later { (n : ℕ) → place ≡ n % frame → result ≡ (n + count) % frame }
{
    ((u64::from(place) + u64::from(count)) % u64::from(frame)) as u32
}
