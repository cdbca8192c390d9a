//! Copies of texts, and texts as keys.
use liq_base::{Memory, Text};
use std::alloc::Global;
use std::cmp::Ordering;
use std::collections::HashSet;
use std::process::Abort;
use std::test::Fail;

// A copy of a text is found in a set that has the text, and another text is not.
#[test]
fn a_copy_is_found_where_its_text_is_a_key(rt: HostRuntime) -> Result<(), Fail> {
    let alloc = rt.alloc();
    let text = Text::from_str(alloc, "jingles")?;
    let copy = text.copy(alloc)?;
    let other = Text::from_str(alloc, "jingle")?;
    let mut names = HashSet::new(alloc);
    assert!(rt; names.insert(text)?);
    assert!(rt; names.contains(&copy));
    assert!(rt; !names.contains(&other));
    Ok(())
}

const ORDERS: &[(&str, &str, Ordering)] = &[
    ("jingle", "jingles", Ordering::Less),
    ("jingles", "jingles", Ordering::Equal),
    ("Z", "a", Ordering::Less),
    ("ü", "z", Ordering::Greater),
    ("", "", Ordering::Equal),
];

// Compares two texts: their order, and whether they are equal.
fn order(alloc: Global, a: &str, b: &str) -> Result<(Ordering, bool), Memory> {
    let a = Text::from_str(alloc, a)?;
    let b = Text::from_str(alloc, b)?;
    Ok((a.cmp(&b), a == b))
}

// Checks each row: two texts, and the order in which they stand.
fn check(rt: &impl Abort, alloc: Global, rows: &[(&str, &str, Ordering)]) -> Result<(), Fail> {
    for row in rows {
        let (a, b, want) = *row;
        assert!(rt; order(alloc, a, b)? == (want, want.is_eq()), "{a}, {b}");
    }
    Ok(())
}

// Texts are compared by their bytes, in order and equality.
#[test]
fn texts_are_ordered_as_their_bytes(rt: HostRuntime) -> Result<(), Fail> {
    check(&rt, rt.alloc(), ORDERS)
}
