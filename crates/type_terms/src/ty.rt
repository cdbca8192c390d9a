// Types and kinds over variables.
ghost use Rattle.std.specs.Prelude.{◌≡◌};
ghost use Rattle.type_terms.specs.Term.{base_of, term_of};

use liq_base::Kind;

/// How many channels a source has, or a variable that stands for it.
#[derive(Clone, Copy, Debug, PartialEq, Eq, Drop)]
pub enum KindTerm {
    Fixed(Kind),
    Var(u64),
}

/// A type without parts and without a kind.
#[derive(Clone, Copy, Debug, PartialEq, Eq, Drop)]
pub enum Base {
    Int,
    Decimal,
    Text,
    Bool,
    Unit,
    Format,
    Pred,
}

/// A type over variables. `docs/language.md` says what the types are.
///
/// A variable's number is the one under which its `Subst` handed it out.
#[derive(Debug, Drop)]
pub enum Ty {
    Int,
    Decimal,
    Text,
    Bool,
    Unit,
    Format,
    Pred,
    List(Box<Ty>),
    Tuple(Vec<Ty>),
    Source(KindTerm),
    Var(u64),
}

impl Ty {
    /// Which base type it is; `None` for a list, a tuple, a source or a variable.
    pub fn base(&self) -> Option<Base>
        ensures { result ≡ base_of (term_of self.now) }
    {
        match self {
            Ty::Int => Some(Base::Int),
            Ty::Decimal => Some(Base::Decimal),
            Ty::Text => Some(Base::Text),
            Ty::Bool => Some(Base::Bool),
            Ty::Unit => Some(Base::Unit),
            Ty::Format => Some(Base::Format),
            Ty::Pred => Some(Base::Pred),
            Ty::List(_) => None,
            Ty::Tuple(_) => None,
            Ty::Source(_) => None,
            Ty::Var(_) => None,
        }
    }
}
