// What these tests share: a text against the one that is wanted.
use std::process::Abort;

/// Checks that what was made of a text is what is wanted, and otherwise ends the test.
pub fn check_same(rt: &impl Abort, source: &str, got: &str, want: &str) {
    assert_eq!(rt; got, want, "{source}");
}
