// Spans of the week.

/// The seconds of the week from one on, up to another one without it; they lie between 0 and 604800.
#[derive(Clone, Copy, Debug, PartialEq, Eq)]
pub struct Span {
    /// The first second.
    pub from: u32,

    /// The second behind the last one.
    pub to: u32,
}
