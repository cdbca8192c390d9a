// General types of defs and builtins, which each call makes its own.
use type_terms::{Ty, places};

/// What a type variable of a general type may stand for: anything, int or decimal, or what a variable of the
/// substitution stands for.
#[derive(Clone, Copy, Debug, PartialEq, Eq)]
pub enum TypeParameter {
    Any,
    Number,
    Outer(u64),
}

/// What a kind variable of a general type may stand for: either kind, or what a variable of the substitution stands
/// for.
///
/// Of those that may be either kind, `Open` are the ones that the text of the def names, and `Unread` all others.
#[derive(Clone, Copy, Debug, PartialEq, Eq)]
pub enum KindParameter {
    Open,
    Unread,
    Outer(u64),
}

/// The type of what a call may call: the types of all parameters, in order, and of the result.
///
/// They are over variables of their own, from 0; `types` and `kinds` say what each may stand for.
/// The open kinds are those kind variables that are `Open`, in their order.
#[derive(Debug, Drop)]
pub struct General {
    pub params: Vec<Ty>,
    pub result: Ty,
    pub types: Vec<TypeParameter>,
    pub kinds: Vec<KindParameter>,
}

impl General {
    /// What a call of this general type costs of the budget of type inference: the nodes of its types, 17 for each type
    /// variable, as its new one allows 16, and four for each kind variable. It stops at the greatest number.
    pub fn places(&self) -> u64 {
        let types = (self.types.len() as u64).saturating_mul(17);
        let variables = (self.kinds.len() as u64)
            .saturating_mul(4)
            .saturating_add(types);
        all_places(&self.params)
            .saturating_add(places(&self.result))
            .saturating_add(variables)
    }
}

/// The sum of the places of these types, which are the nodes of each.
fn all_places(tys: &[Ty]) -> u64 {
    let mut sum: u64 = 0;
    for ty in tys {
        sum = sum.saturating_add(places(ty));
    }
    sum
}
