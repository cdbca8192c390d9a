// What is told of a rendering.
use buffer_ends::{BufferLog, Counts};
use clock_ticks::CueMark;

/// What is told of a rendering: of each output, in sink order, at how many instants its node offered nothing; of each
/// buffer how its puts and takes were answered, in numbers and one by one, window after window; and of each output,
/// where cue files are wanted, the instants at which its tracks began, with their titles.
#[derive(Debug, Drop)]
pub struct Rendered {
    pub gaps: Vec<u64>,
    pub counts: Vec<Counts>,
    pub logs: Vec<BufferLog>,
    pub cues: Vec<Vec<CueMark>>,
}
