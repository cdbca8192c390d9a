// A byte sink that drops what it takes.
ghost use Rattle.std.specs.Prelude.{◌≡◌, ◌+◌, ◌-◌, ◌^◌, length, min, Ok};

use liq_base::{Failed, Sink};

/// A byte sink that counts the bytes that it takes and drops them, so that a measurement holds next to nothing but what
/// makes them. It tells neither its bytes nor a name nor a room, and it never fails.
#[derive(Debug, Drop)]
pub struct DroppingSink {
    /// How many bytes were taken, or the most that a `u64` holds.
    pub taken: u64,
}

impl Sink for DroppingSink {
    ghost use Rattle.liq_base.specs.Untold.{faults_alone};

    ghost told = { λ s. faults_alone 0 };

    // Counts the bytes of a piece, up to the most that a `u64` holds, and drops them.
    fn append(&mut self, piece: &[u8]) -> Result<(), Failed>
        ensures sure { result ≡ Ok tt }
        ensures count { self.new.taken ≡ min (self.old.taken + length piece.now) (2 ^ 64 - 1) }
    {
        self.taken = self.taken.saturating_add(piece.len() as u64);
        Ok(())
    }
}
