// What a plan is rendered over.
use clock_infer::ClockMap;
use frame_core::Library;

/// What a plan is rendered over: its audio files, and the clocks of its nodes.
#[derive(Drop)]
pub struct Ready {
    pub library: Library,
    pub clocks: ClockMap,
}
