// A square wave.
ghost use Rattle.std.specs.Prelude.{◌≡◌, ◌<◌, ◌≤◌, ◌*◌, ℕ, suc, unsigned_abs};
ghost use Rattle.op_leaf.specs.Leaves.{square_cell};

use fixed_text::Decimal;
use frame_core::Cell;
use liq_base::Kind;

/// The sample in the first half of a period; the second half has its opposite.
const HEIGHT: i16 = 8192;

/// A period has `rate` times this many parts, of which the pitch in millionths goes by with each sample.
const MILLION: u64 = 1_000_000;

/// The state of a square wave between two instants.
#[derive(Debug, Drop)]
pub struct Square {
    /// Periods a second.
    pub pitch: Decimal,

    /// Samples a second.
    pub rate: u32,

    /// Whether both sides are there.
    pub kind: Kind,

    /// How much of its period is over; `rate` millions are a whole one.
    pub phase: u64,

    /// Whether it gave its first cell.
    pub begun: bool,

    ghost rate_above: { 0 < rate },
    ghost in_period: { phase < rate * 1000000 },
}

impl Square {
    ghost use Rattle.op_leaf.specs.Standing.{SquareStandsAt};

    /// A square wave at its start, of `pitch` periods a second at `rate` samples a second.
    pub fn new(pitch: Decimal, rate: u32, kind: Kind) -> Square
        requires { 0 < rate }
        ensures pitch { result.pitch ≡ pitch }
        ensures rate { result.rate ≡ rate }
        ensures kind { result.kind ≡ kind }
        ensures stands { SquareStandsAt result 0 }
    {
        Square {
            pitch,
            rate,
            kind,
            phase: 0,
            begun: false,
        }
    }

    /// The cell that it offers: the upper value in the first half of each period, and the lower one in the second.
    pub fn offer(&self) -> Cell
        ensures { (p : ℕ) → SquareStandsAt self.now p
            → result ≡ square_cell self.now.pitch self.now.rate self.now.kind p }
    {
        let left = if self.phase < u64::from(self.rate) * (MILLION / 2) {
            HEIGHT
        } else {
            -HEIGHT
        };
        let right = match self.kind {
            Kind::Mono => 0,
            Kind::Stereo => left,
        };
        Cell {
            left,
            right,
            first: !self.begun,
            title: 0,
        }
    }

    /// Goes on by one cell.
    pub fn advance(&mut self)
        ensures pitch { self.new.pitch ≡ self.old.pitch }
        ensures rate { self.new.rate ≡ self.old.rate }
        ensures kind { self.new.kind ≡ self.old.kind }
        ensures stands { (p : ℕ) → SquareStandsAt self.old p → SquareStandsAt self.new (suc p) }
    {
        self.phase = (self.phase + step_of(self.pitch)) % (u64::from(self.rate) * MILLION);
        self.begun = true;
    }
}

impl Square {
    ghost use Rattle.std.specs.Prelude.{◌+◌, length, Some};
    ghost use Rattle.op_leaf.specs.Inner.{lefts_of, rights_of};
    ghost use Rattle.op_leaf.specs.Standing.{SquareStandsAt};

    /// Writes as many samples as the slices are long, and goes on behind them.
    pub fn run(&mut self, left: &mut [i16], right: &mut [i16])
        requires same { length right.old ≡ length left.old }
        ensures pitch { self.new.pitch ≡ self.old.pitch }
        ensures rate { self.new.rate ≡ self.old.rate }
        ensures kind { self.new.kind ≡ self.old.kind }
        ensures stands { (p : ℕ) → SquareStandsAt self.old p → SquareStandsAt self.new (p + length left.old) }
        ensures left { (p : ℕ) → SquareStandsAt self.old p
            → left.new ≡ lefts_of (λ q. Some (square_cell self.old.pitch self.old.rate self.old.kind q)) p
            (length left.old) }
        ensures right { (p : ℕ) → SquareStandsAt self.old p
            → right.new ≡ rights_of (λ q. Some (square_cell self.old.pitch self.old.rate self.old.kind q)) p
            (length left.old) }
    {
        for at in 0..left.len() {
            let cell = self.offer();
            left[at] = cell.left;
            right[at] = cell.right;
            self.advance();
        }
    }
}

// How far a square wave goes in its period with each sample, in parts of which a period has a million times the rate:
// its pitch in millionths.
fn step_of(pitch: Decimal) -> u64
    ensures step { result ≡ unsigned_abs pitch.millionths }
    ensures bound { result ≤ 1000000000000000 }
{
    pitch.millionths.unsigned_abs()
}
