// What may be loaded.

/// How many bytes may be loaded.
#[derive(Clone, Copy, Debug)]
pub struct Sizes {
    /// The most bytes that one audio file may count for, at most 268435456.
    pub file: u64,

    /// The most bytes that all audio files that are used may count for, each once.
    pub all: u64,
}

/// What the walk over a plan's nodes goes by.
#[derive(Clone, Copy, Debug)]
pub struct Rules {
    /// The rate of the script, from 8000 to 192000 samples a second.
    pub rate: u32,

    /// The most bytes that one audio file may count for, at most 268435456.
    pub file: u64,

    /// The most bytes that all audio files that are used may count for.
    pub all: u64,
}
