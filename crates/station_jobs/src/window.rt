// The windows of a rendering by threads.
ghost use Rattle.std.specs.Prelude.{◌≡◌, ◌<◌, ◌≤◌, ◌^◌, ℕ, Some, IfSome, IsSomeAnd};
ghost use Rattle.station_jobs.specs.Words.{IsWindow, IsWindowText};

use fixed_text::read_u64;

/// How many ticks a window has at most.
const MAX_WINDOW: u64 = 1_000_000;

/// How many ticks a window of threads has.
#[derive(Clone, Copy)]
pub struct Window {
    /// Ticks, from 1 to 1000000.
    pub ticks: u64,
    ghost some: { 0 < ticks },
    ghost few: { ticks ≤ 10 ^ 6 },
}

/// Reads a word `--window=W` as the number of ticks of a window of threads; `None` for any other word.
pub fn read_window_option(word: &str) -> Option<Window>
    ensures found { IfSome result (λ window. IsWindow word.now window.ticks) }
    ensures only { (window : ℕ) → IsWindow word.now window → IsSomeAnd result (λ found. found.ticks ≡ window) }
{
    let text = word.as_bytes().strip_prefix(b"--window=")?;
    read_window(text)
}

// Reads the text behind `--window=` as a number of ticks from 1 to 1000000; `None` for any other text.
fn read_window(text: &[u8]) -> Option<Window>
    ensures found { IfSome result (λ window. IsWindowText text.now window.ticks) }
    ensures only { (window : ℕ) → IsWindowText text.now window → IsSomeAnd result (λ found. found.ticks ≡ window) }
{
    let ticks = read_u64(text)?;
    if ticks == 0 || ticks > MAX_WINDOW {
        return None;
    }
    Some(Window { ticks })
}
