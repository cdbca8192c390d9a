// How a parameter is given.

/// How an argument is given to a parameter: in its place, by its label, or by its label if at all: then there is a
/// default.
#[derive(Clone, Copy, Debug, PartialEq, Eq)]
pub enum Form {
    InPlace,
    ByLabel,
    Perhaps,
}
