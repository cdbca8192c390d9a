//! The first words of seeds, by the table of `docs/formats.md`.
use seed_words::SeedWords;
use std::process::Abort;

// Each row: a seed, and its first four words.
const WORDS: &[(u64, u32, u32, u32, u32)] = &[
    (0, 298703107, 4236525527, 336081875, 1056616254),
    (1, 866585574, 2109535214, 3403630417, 296513984),
    (7, 2442223337, 414063806, 2743600285, 3524868804),
    (
        18446744073709551615,
        2553256318,
        1362994822,
        3759657484,
        3366838333,
    ),
];

// Checks that each seed gives its first four random words, and that a peek at the next word takes none.
fn check(rt: &impl Abort, rows: &[(u64, u32, u32, u32, u32)]) {
    for row in rows {
        let (seed, first, second, third, fourth) = *row;
        let mut words = SeedWords::new(seed);
        assert_eq!(rt; words.peek(), first);
        assert_eq!(rt; words.next_word(), first);
        assert_eq!(rt; words.next_word(), second);
        assert_eq!(rt; words.next_word(), third);
        assert_eq!(rt; words.peek(), fourth);
    }
}

// Tests the random words of seeds by the table.
#[test]
fn a_seed_has_its_words(rt: HostRuntime) {
    check(&rt, WORDS);
}
