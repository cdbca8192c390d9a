// How many ticks are rendered.
ghost use Rattle.std.specs.Prelude.{◌≡◌, ◌≤◌, ◌^◌, ℕ, decimal, IfSome, IsSomeAnd};

use fixed_text::read_u64;

/// How many ticks a rendering has at most.
const MAX_TICKS: u64 = 1_000_000_000;

/// How many ticks are rendered.
#[derive(Clone, Copy)]
pub struct Ticks {
    /// At most 1000000000.
    pub count: u64,
    ghost few: { count ≤ 10 ^ 9 },
}

/// Reads a word as the number of ticks to be rendered, at most 1000000000; `None` for any other word.
pub fn read_ticks(word: &[u8]) -> Option<Ticks>
    ensures found { IfSome result (λ ticks. word.now ≡ decimal ticks.count) }
    ensures only { (n : ℕ) → n ≤ 10 ^ 9 → word.now ≡ decimal n → IsSomeAnd result (λ ticks. ticks.count ≡ n) }
{
    let count = read_u64(word)?;
    if count > MAX_TICKS {
        return None;
    }
    Some(Ticks { count })
}
