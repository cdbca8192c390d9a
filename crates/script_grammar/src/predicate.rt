// The tree of what stands in curly brackets: a predicate of the time. Each `drop` is written out, as in `tree.rt`.
use fixed_text::TimeMark;

/// Parts joined by `or`, at least one.
#[cycle(predicate)]
pub struct POr {
    pub parts: Vec<PAnd>,
}

impl Drop for POr {
    // Frees this part of a tree with all that it holds. Written out, so that other crates need not prove a derived one.
    #[cycle(drop_predicate)]
    fn drop(self) {
        let Self { parts: _ } = self;
    }
}

/// Parts joined by `and`, at least one.
#[cycle(predicate)]
pub struct PAnd {
    pub parts: Vec<PNot>,
}

impl Drop for PAnd {
    // Frees this part of a tree with all that it holds. Written out, so that other crates need not prove a derived one.
    #[cycle(drop_predicate)]
    fn drop(self) {
        let Self { parts: _ } = self;
    }
}

/// An atom, perhaps behind `not`.
#[cycle(predicate)]
pub struct PNot {
    pub negated: bool,
    pub atom: PAtom,
}

impl Drop for PNot {
    // Frees this part of a tree with all that it holds. Written out, so that other crates need not prove a derived one.
    #[cycle(drop_predicate)]
    fn drop(self) {
        let Self {
            negated: _,
            atom: _,
        } = self;
    }
}

/// A truth value, a time mark, two of them with a `-` between, or a predicate in parentheses.
#[cycle(predicate)]
pub enum PAtom {
    True,
    False,
    At(TimeMark),
    Between(TimeMark, TimeMark),
    Paren(Box<POr>),
}

impl Drop for PAtom {
    // Frees this part of a tree with all that it holds. Written out, so that other crates need not prove a derived one.
    #[cycle(drop_predicate)]
    fn drop(self) {
        match self {
            PAtom::True => {}
            PAtom::False => {}
            PAtom::At(_) => {}
            PAtom::Between(_, _) => {}
            PAtom::Paren(_) => {}
        }
    }
}
