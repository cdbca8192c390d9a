// The forms of the words.
use crate::size::Size;
use crate::ticks::Ticks;
use crate::window::Window;
use fixed_text::WeekSecond;

/// What words ask for.
#[derive(Clone, Copy)]
pub enum Form<'a> {
    /// `check FILE`
    Check {
        /// The name of the script.
        file: &'a str,
    },

    /// `render FILE N --one-thread` and options
    Alone(Rendering<'a>),

    /// `render FILE N` and options
    Threads {
        /// What is rendered.
        asked: Rendering<'a>,

        /// How many ticks a window has.
        window: Window,
    },

    /// `make SEED SIZE`
    Make {
        /// The number from which the workload is made.
        seed: u64,
        size: Size,
    },

    /// `replay FILE N TRACE` and a start
    Replay {
        /// The name of the script.
        file: &'a str,

        /// The second of the week of the first sample.
        start: WeekSecond,

        /// How many ticks are rendered.
        ticks: Ticks,

        /// The name of the trace by which it is rendered again.
        trace: &'a str,
    },
}

/// A rendering, but for how its ticks are made.
#[derive(Clone, Copy)]
pub struct Rendering<'a> {
    /// The name of the script.
    pub file: &'a str,

    /// The second of the week of the first sample.
    pub start: WeekSecond,

    /// How many ticks are rendered.
    pub ticks: Ticks,

    /// The name of the file that gets the trace, if one is wanted. Threads alone leave one.
    pub trace: Option<&'a str>,

    /// Whether each output gets a cue file.
    pub cues: bool,
}
