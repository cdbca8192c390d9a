// Why a check ends without the plan's audio files and clocks.
ghost use Rattle.std.specs.Prelude.{◌≡◌};
ghost use Rattle.station_check.specs.declared.halt.CheckEnd.TheVariants.{Memory as no_memory};

use liq_base::Memory;
use stations::StationFault;

/// Why a check ends without the plan's audio files and clocks.
#[derive(Debug, Drop)]
pub enum CheckEnd {
    /// The plan is refused.
    Refused(StationFault),

    /// A file could not be read.
    Read,

    /// Memory was refused.
    Memory,
}

impl From<Memory> for CheckEnd {
    ghost from_gives = { λ _ e. e ≡ no_memory };

    // Ends a check where memory was refused.
    fn from(_refused: Memory) -> CheckEnd {
        CheckEnd::Memory
    }
}
