// A type variable of a substitution.
ghost use Rattle.std.specs.Prelude.{◌≡◌, false, option_map, option_copied};
ghost use Rattle.type_terms.specs.Counting.{one_if_free};
ghost use Rattle.type_terms.specs.Term.{term_of};

use crate::ty::Ty;
use std::marker::Model;

/// A type variable: whether it is a number variable, and what it is bound to.
#[derive(Drop)]
pub struct TypeVariable {
    number: bool,
    bound: Option<Ty>,
}

impl Model for TypeVariable {
    ghost use Rattle.std.specs.Prelude.{option_map};
    ghost use Rattle.type_terms.specs.Term.{term_of};
    ghost use Rattle.type_terms.specs.Variables.{Variable};
    ghost use Rattle.type_terms.specs.Codes.{variable_code};

    ghost Value = { Variable };

    ghost coded = { variable_code };

    ghost view = { λ s. record { number = s.number; bound = option_map term_of s.bound } };
}

impl TypeVariable {
    /// A variable that is bound to nothing; a number variable if `number` is true.
    pub fn new(number: bool) -> TypeVariable
        ensures { result ≡ record { number = number; bound = None } }
    {
        TypeVariable {
            number,
            bound: None,
        }
    }

    /// A variable that is bound to the type, and is no number variable.
    pub fn bound_to(ty: Ty) -> TypeVariable
        ensures { result ≡ record { number = false; bound = Some (term_of ty) } }
    {
        TypeVariable {
            number: false,
            bound: Some(ty),
        }
    }

    /// Whether it is a number variable, one that can only be int or decimal in the end.
    pub fn is_number(&self) -> bool
        ensures { result ≡ self.now.number }
    {
        self.number
    }

    /// What the variable is bound to; `None` where it is free.
    pub fn bound(&self) -> Option<&Ty>
        ensures { option_map term_of (option_copied result) ≡ self.now.bound }
    {
        match &self.bound {
            Some(ty) => Some(ty),
            None => None,
        }
    }

    /// 1 if the variable is bound to nothing, else 0, to be added up.
    pub fn free_count(&self) -> usize
        ensures { result ≡ one_if_free self.now.bound }
    {
        match &self.bound {
            Some(_) => 0,
            None => 1,
        }
    }

    /// Binds the variable to the type.
    pub fn bind(&mut self, ty: Ty)
        ensures { self.new ≡ record { number = self.old.number; bound = Some (term_of ty) } }
    {
        self.bound = Some(ty);
    }

    /// Takes the variable's binding away.
    pub fn free(&mut self)
        ensures { self.new ≡ record { number = self.old.number; bound = None } }
    {
        self.bound = None;
    }
}
