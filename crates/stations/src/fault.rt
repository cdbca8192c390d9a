// Why a plan is not rendered.
use clock_infer::ClockFault;
use liq_base::Text;
use track_library::LoadFault;

/// Why a plan is not rendered, in the order in which the faults are looked for. `docs/faults.md` has the line of each.
#[derive(Debug, Drop)]
pub enum StationFault {
    /// The audio files are not loaded.
    Files(LoadFault),

    /// The output of this name needs a source that always has a cell, and has none.
    FallibleOutput(Text),

    /// There are no clocks for the nodes.
    Clocks(ClockFault),

    /// The output of this name is too long for the header of its file.
    OutputTooLong(Text),
}
