// The size of a workload.
ghost use Rattle.std.specs.Prelude.{◌≡◌, ◌≤◌, ◌<◌, ◌^◌, ℕ, decimal, IfSome, IsSomeAnd};

use fixed_text::read_u64;

/// How many audio files a workload has at most.
const MAX_SIZE: u64 = 100;

/// How many audio files a workload has.
#[derive(Clone, Copy)]
pub struct Size {
    /// From 1 to 100.
    pub files: u32,
    ghost some: { 1 ≤ files },
    ghost few: { files ≤ 100 },
}

/// Reads a word of `make` as the number of audio files of a workload, from 1 to 100; `None` for any other word.
pub fn read_size(word: &[u8]) -> Option<Size>
    ensures found { IfSome result (λ size. word.now ≡ decimal size.files) }
    ensures only { (n : ℕ) → 1 ≤ n → n ≤ 100 → word.now ≡ decimal n → IsSomeAnd result (λ size. size.files ≡ n) }
{
    let files = read_u64(word)?;
    if files == 0 || files > MAX_SIZE {
        return None;
    }
    Some(Size {
        files: files as u32,
    })
}
