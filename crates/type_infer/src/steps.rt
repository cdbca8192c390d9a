// What typing keeps of the statements that it has typed.
use expression_types::{Bindings, Defs, FoundUse, TypedName};
use general_types::Held;
use type_terms::Subst;

/// The number of the type variable of an expression, and the uses in it.
#[derive(Drop)]
pub struct TypedExpr {
    pub var: u64,
    pub uses: Vec<FoundUse>,
}

/// What a statement has left: a binding and the uses in its value, a def by its index among the defs, or the uses of a
/// call or an `if` that runs.
#[derive(Drop)]
pub enum Step {
    Bound(TypedName, Vec<FoundUse>),
    Defined(usize),
    Ran(Vec<FoundUse>),
}

/// The typings of statements: the substitution whose solutions they are, what the statements have bound, the newest
/// last, their defs, and what each statement has left.
///
/// Only a def asks which variables the types of values hold. So `held` has those of an earlier substitution, for the
/// values that were bound then, and `pending` the variables that are the types of the values bound since, the oldest
/// first.
#[derive(Drop)]
pub struct Typing<'a> {
    pub subst: Subst,
    pub before: Bindings,
    pub defs: Defs<'a>,
    pub held: Held,
    pub pending: Vec<u64>,
    pub steps: Vec<Step>,
}
