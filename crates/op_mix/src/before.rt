// What the nodes before a node gave.
use stream_meaning::Part;

/// What the nodes before a node gave in a stretch, by a node's number.
#[derive(Clone, Copy)]
pub struct Before<'a> {
    /// What each node gave at the first instant, as which the others go on.
    pub parts: &'a [Part],

    /// The left samples of each node, the first of which are those of the stretch.
    pub left: &'a [Vec<i16>],

    /// The right samples of each node, the first of which are those of the stretch.
    pub right: &'a [Vec<i16>],
}
