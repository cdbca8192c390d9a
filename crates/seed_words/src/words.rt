// The words of a seed, one after another.
ghost use Rattle.std.specs.Prelude.{◌≡◌, ℕ, suc};
ghost use Rattle.seed_words.specs.Words.{words_from};

use rand_core::SeedableRng;
use rand_core::utils::NextWord;
use rand_pcg::Pcg32;
use std::marker::Model;

/// The words of a seed from one of them on: numbers of 32 bits, counted from 0, the same for the same seed. They are
/// those of PCG's generator with 64 bits of state (XSH RR), made of the seed as `rand` makes it by `seed_from_u64`;
/// `docs/formats.md` has the first words of some seeds.
#[derive(Debug, Drop)]
pub struct SeedWords {
    // The next word, and the generator behind it.
    next: u32,
    behind: Pcg32,
}

impl Model for SeedWords {
    ghost use Rattle.seed_words.specs.Words.{Unread};

    ghost Value = { Unread };

    ghost view = { λ s. record { next = s.next; behind = s.behind } };

    ghost inverse = { λ u. record { next = u.next; behind = u.behind } };
}

impl SeedWords {
    /// The words of a seed, from word 0 on.
    pub fn new(seed: u64) -> SeedWords
        ensures { result ≡ words_from seed 0 }
    {
        let mut behind = Pcg32::seed_from_u64(seed);
        let next = behind.next_word();
        SeedWords { next, behind }
    }

    /// The next word of the seed, which is not taken: it stays the next one.
    pub fn peek(&self) -> u32
        ensures { result ≡ self.now.next }
    {
        self.next
    }

    /// Takes the next word of the seed, and answers it. The one behind it is then the next.
    pub fn next_word(&mut self) -> u32
        ensures word { result ≡ self.old.next }
        ensures words { (seed n : ℕ) → self.old ≡ words_from seed n → self.new ≡ words_from seed (suc n) }
    {
        let word = self.next;
        self.next = self.behind.next_word();
        word
    }
}
