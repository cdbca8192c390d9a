// The buffers as a clock sees them.
use crate::chunk::{Chunk, Gave};
use liq_base::Memory;

/// The buffers of a clock, counted from 0. They stand for lists of calls, and each call that is answered comes at the
/// end of each of these lists. So nothing that goes through them needs to be kept.
pub trait Taps {
    ghost use Rattle.std.specs.Prelude.{◌≡◌, ℕ, ◌<◌, List, [], ◌∷◌, IfOk, IfErr, OnErr};
    ghost use Rattle.frame_core.specs.Calls.{Call, Adds, IsGive};
    ghost use Rattle.frame_core.specs.Calls.Call.{Took};

    /// The lists of calls that they stand for.
    ghost stands: { Self → List Call → Type 0 };

    /// How many buffers there are.
    ghost buffers: { Self → ℕ };

    /// What no call changes.
    ghost same: { Self → Self → Type 0 };

    /// Takes the next chunk of a buffer; `None` where the buffer is empty. Where memory is refused no call was made.
    fn take(&mut self, buffer: u32) -> Result<Option<Chunk>, Memory>
        requires { buffer < buffers self.old }
        ensures buffers { buffers self.new ≡ buffers self.old }
        ensures same { same self.old self.new }
        ensures call { IfOk result (λ answer. Adds stands self.old self.new (Took buffer answer ∷ [])) }
        ensures memory { OnErr result (Adds stands self.old self.new []) };

    /// Gives a chunk to a buffer: answers `Accepted`, or `Full` with the chunk where the buffer is full. `Err` is
    /// want of memory, and hands the chunk back too; then no call was made.
    fn give(&mut self, buffer: u32, chunk: Chunk) -> Result<Gave, (Chunk, Memory)>
        requires { buffer < buffers self.old }
        ensures buffers { buffers self.new ≡ buffers self.old }
        ensures same { same self.old self.new }
        ensures call { IfOk result (λ gave. (call : Call) × IsGive buffer chunk gave call
            × Adds stands self.old self.new (call ∷ [])) }
        ensures memory { IfErr result (λ e. (e.0 ≡ chunk) × Adds stands self.old self.new []) };

    ghost same_refl: { (s : Self) → same s s };

    ghost same_trans: { (s t u : Self) → same s t → same t u → same s u };
}
