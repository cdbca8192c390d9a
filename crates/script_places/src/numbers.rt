// The number that a line names.
ghost use Rattle.std.specs.Prelude.{◌≡◌, ◌==◌, ◌<◌, ◌≤◌, ◌-◌, ◌^◌, ℕ, IfSome, Some, false, get_or, length};
ghost use Rattle.std.specs.Char.{is_ascii_digit};
ghost use Rattle.std.specs.List.{position, suffix_len};
ghost use Rattle.script_places.specs.Naming.{EndsIn, Leads, is_no_blank};

use fixed_text::read_u64;

/// The number at the end of a line, behind these words; `None` where no number below 2^64 stands there.
pub fn number_at_end(line: &[u8], words: &[u8]) -> Option<u64>
    requires { get_or words.now (length words.now - 1) 0 ≡ 32 }
    ensures found { IfSome result (EndsIn words.now line.now) }
    ensures only { (n : ℕ) → n < 2 ^ 64 → EndsIn words.now line.now n → result ≡ Some n }
{
    let (front, number) = line.split_at(last_word(line));
    if !front.ends_with(words) {
        return None;
    }
    read_u64(number)
}

// Where the last word of a line begins: the index of the byte behind the last blank, or 0 where there is none.
fn last_word(line: &[u8]) -> usize
    ensures place { result ≡ length line.now - suffix_len is_no_blank line.now }
    ensures within { result ≤ length line.now }
{
    let mut start = line.len();
    while start > 0 && line[start - 1] != b' ' {
        start -= 1;
    }
    start
}

/// The number at the front of a text, up to the first `byte`; `None` where no number below 2^64 stands there.
pub fn number_in_front(text: &[u8], byte: u8) -> Option<u64>
    requires { is_ascii_digit byte ≡ false }
    ensures found { IfSome result (Leads byte text.now) }
    ensures only { (n : ℕ) → n < 2 ^ 64 → Leads byte text.now n → result ≡ Some n }
{
    let at = place_of(text, byte)?;
    read_u64(&text[..at])
}

// The index, from 0, at which `byte` first stands in a text; `None` where it does not.
fn place_of(text: &[u8], byte: u8) -> Option<usize>
    ensures { result ≡ position (λ b. b == byte) text.now }
{
    text.iter().position(|other| *other == byte)
}
