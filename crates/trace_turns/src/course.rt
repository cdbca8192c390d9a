// How far the calls of a run could be answered.

/// How far the calls of a run were answered.
#[derive(Clone, Copy, Debug, PartialEq, Eq)]
pub enum Course {
    /// Each of them was.
    Goes,
    /// A take is to get a chunk that is not there yet, or that was let go.
    Waits,
    /// A call has no answer that can be right.
    Fails,
}

/// A turn of a clock, and how many ticks the clock has made after it, from its first one on.
#[derive(Clone, Copy, Debug, PartialEq, Eq)]
pub struct TurnMade {
    pub clock: u32,
    pub ticks: u64,
}
