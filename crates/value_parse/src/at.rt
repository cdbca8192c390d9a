// Where reading stands.
use script_lex::Token;
use std::alloc::Global;

/// Where reading stands: how many tokens the script has, how many levels may nest from here on, whether a `(` may stand
/// behind what is read, and the tokens that are left.
#[derive(Clone, Copy)]
pub struct At<'a> {
    pub alloc: Global,
    pub total: usize,
    pub levels: usize,
    pub loose: bool,
    pub tokens: &'a [Token],
}
