// A mark in the week, as it stands in a script.

/// A time mark of a script: at least one of its parts is there. `7w24h60m60s` has the largest parts that a script can
/// write. `docs/language.md`, "Predicates and time", says what it means.
#[derive(Clone, Copy, Debug, PartialEq, Eq, Hash)]
pub struct TimeMark {
    /// The day of the week from 1 (Monday) to 7; 0 is Sunday too.
    pub day: Option<u8>,

    /// Hours, at most 24.
    pub hour: Option<u8>,

    /// Minutes, at most 60.
    pub minute: Option<u8>,

    /// Seconds, at most 60.
    pub second: Option<u8>,
}
