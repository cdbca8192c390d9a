// How often the calls on a buffer had which answer.
ghost use Rattle.std.specs.Prelude.{◌≡◌, ◌+◌, IfOk, true, false};

use liq_base::Memory;

/// How many puts of a buffer were accepted and how many found it full, and how many takes got a chunk and how many
/// found it empty.
#[derive(Clone, Copy, Debug, PartialEq, Eq)]
pub struct Counts {
    pub accepted: u64,
    pub full: u64,
    pub got: u64,
    pub empty: u64,
}

impl Counts {
    /// The counts of a buffer before any call: no put and no take.
    pub fn none() -> Counts
        ensures { result ≡ record { accepted = 0; full = 0; got = 0; empty = 0 } }
    {
        Counts {
            accepted: 0,
            full: 0,
            got: 0,
            empty: 0,
        }
    }

    // These counts with one more put, which was accepted or found the buffer full. Memory is refused where no number
    // counts it.
    pub(crate) fn with_put(self, accepted: bool) -> Result<Counts, Memory>
        ensures yes { accepted ≡ true → IfOk result (λ counts. counts ≡ record self { accepted = self.accepted + 1 }) }
        ensures no { accepted ≡ false → IfOk result (λ counts. counts ≡ record self { full = self.full + 1 }) }
    {
        if accepted {
            let accepted = self.accepted.checked_add(1).ok_or(Memory)?;
            return Ok(Counts { accepted, ..self });
        }
        let full = self.full.checked_add(1).ok_or(Memory)?;
        Ok(Counts { full, ..self })
    }

    // These counts with one more take, which got a chunk or found the buffer empty. Memory is refused where no number
    // counts it.
    pub(crate) fn with_take(self, got: bool) -> Result<Counts, Memory>
        ensures yes { got ≡ true → IfOk result (λ counts. counts ≡ record self { got = self.got + 1 }) }
        ensures no { got ≡ false → IfOk result (λ counts. counts ≡ record self { empty = self.empty + 1 }) }
    {
        if got {
            let got = self.got.checked_add(1).ok_or(Memory)?;
            return Ok(Counts { got, ..self });
        }
        let empty = self.empty.checked_add(1).ok_or(Memory)?;
        Ok(Counts { empty, ..self })
    }
}
