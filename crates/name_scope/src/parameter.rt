// Arguments as a call sees them.

/// The label of an argument, and its first token.
#[derive(Clone, Copy, Debug, Default)]
pub struct Given<'a> {
    pub label: Option<&'a str>,
    pub at: u32,
}
