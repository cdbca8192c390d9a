// One sample of each channel, and what cells have beside them.

/// One sample of each channel, at one instant of a source.
#[derive(Clone, Copy, Debug, PartialEq, Eq, Hash)]
pub struct Cell {
    /// The left sample; in a mono source the only one.
    pub left: i16,

    /// The right sample; 0 in a mono source.
    pub right: i16,

    /// Whether a track begins here.
    pub first: bool,

    /// The title of that track: 0 is none, and k + 1 is the name of file k of the library.
    pub title: u32,
}

/// What a cell has beside its samples.
#[derive(Clone, Copy, Debug)]
pub struct CellMark {
    /// Whether a track begins here.
    pub first: bool,

    /// The title of that track.
    pub title: u32,
}

/// Marks of one title, of which the first alone may begin a track.
#[derive(Clone, Copy, Debug, PartialEq, Eq)]
pub struct MarkRun {
    /// Whether a track begins at the first of them.
    pub first: bool,

    /// The title of that track.
    pub title: u32,

    /// How many they are.
    pub count: u32,
}
