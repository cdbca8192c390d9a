// How a node takes turns among its children, and what it answers.

/// How a node takes turns among its children. One that has begun a track plays it to its end, and then one is chosen.
#[derive(Clone, Copy, Debug, PartialEq, Eq, Hash)]
pub enum Turn {
    /// A rotate: the children in a ring, in their order.
    Rotate,

    /// A random: a child by chance, which the words of this seed decide.
    Random { seed: u64 },
}
