// Why a rendering broke off.
ghost use Rattle.std.specs.Prelude.{◌≡◌};

use liq_base::{Failed, Memory, ShelfFault};
use std::alloc::AllocError;

/// Why a rendering broke off.
#[derive(Clone, Copy, Debug, PartialEq, Eq)]
pub enum RenderFault {
    /// A creation, an append to an output or a closing failed.
    Write,
    /// Memory was refused.
    Memory,
}

impl From<AllocError> for RenderFault {
    ghost use Rattle.station_render.specs.declared.fault.RenderFault.TheVariants.{Memory as no_memory};

    ghost from_gives = { λ _ e. e ≡ no_memory };

    // A refused allocation as the fault of a rendering: want of memory.
    fn from(_refused: AllocError) -> Self {
        RenderFault::Memory
    }
}

impl From<Memory> for RenderFault {
    ghost use Rattle.station_render.specs.declared.fault.RenderFault.TheVariants.{Memory as no_memory};

    ghost from_gives = { λ _ e. e ≡ no_memory };

    // Want of memory as the fault of a rendering.
    fn from(_refused: Memory) -> Self {
        RenderFault::Memory
    }
}

impl From<Failed> for RenderFault {
    ghost use Rattle.station_render.specs.declared.fault.RenderFault.TheVariants.{Write};

    ghost from_gives = { λ _ e. e ≡ Write };

    // The failure of a device as the fault of a rendering: a failed write.
    fn from(_failed: Failed) -> Self {
        RenderFault::Write
    }
}

impl From<ShelfFault> for RenderFault {
    ghost use Rattle.station_render.specs.Faults.{render_fault_of};

    ghost from_gives = { λ fault e. e ≡ render_fault_of fault };

    // A shelf's fault as the fault of a rendering: a failed write, or want of memory.
    fn from(fault: ShelfFault) -> Self {
        match fault {
            ShelfFault::Failed => RenderFault::Write,
            ShelfFault::Memory => RenderFault::Memory,
        }
    }
}
