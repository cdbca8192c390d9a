// What is rendered.
use fixed_text::WeekSecond;
use plan_core::Plan;
use stations::Ready;

/// What is rendered: a plan over its files and clocks, from a second of the week on.
#[derive(Drop)]
pub struct Job<'a> {
    pub plan: Plan,
    pub ready: Ready,

    /// The second of the week at which it begins.
    pub start: WeekSecond,

    /// How many ticks each clock makes, at most 1000000000.
    pub ticks: u64,

    /// The name of the file that gets the trace, if one is wanted. Threads alone leave one.
    pub trace: Option<&'a str>,

    /// Whether each output gets a cue file beside it.
    pub cues: bool,
}
