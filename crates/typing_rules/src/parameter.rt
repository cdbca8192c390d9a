// Parameters as a call sees them.
use crate::form::Form;

/// The name of a parameter, and how an argument is given to it.
#[derive(Clone, Copy, Debug)]
pub struct Parameter<'a> {
    pub name: &'a str,
    pub form: Form,
}
