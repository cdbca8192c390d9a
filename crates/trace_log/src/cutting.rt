// Parts are cut from the front of a text.
ghost use Rattle.std.specs.Prelude.{◌≡◌, ◌<◌, ◌^◌, ◌++◌, ◌∷◌, ℕ, List, Bool, ◌≢◌, IfSome, IsSomeAnd, decimal, position};
ghost use Rattle.std.specs.Prelude.{◌==◌};
ghost use Rattle.std.specs.List.{list_all};
ghost use Rattle.trace_log.specs.Marks.{Lacks, are_letters, is_letter};
ghost use Rattle.trace_log.specs.Texts.{header, letters, line, InBounds};
ghost use Rattle.buffer_ends.specs.Local.{Answers};

use fixed_text::read_u64;

// Cuts line 0 from a text: the numbers of ticks, of a window's ticks and of buffers, and the text after it. `None`
// exactly where line 0 has not its form, or a number is out of its bounds.
pub(crate) fn cut_header(text: &[u8]) -> Option<(u64, u64, u64, &[u8])>
    ensures found { IfSome result (λ p. InBounds p.0 p.1 p.2 × (text.now ≡ header p.0 p.1 p.2 ++ p.3.now)) }
    ensures only { (n w b : ℕ) (f : List ℕ) → InBounds n w b → text.now ≡ header n w b ++ f
        → IsSomeAnd result (λ p. (p.0 ≡ n) × (p.1 ≡ w) × (p.2 ≡ b) × (p.3.now ≡ f)) }
{
    let behind = cut_word(text, b"liq trace 1 ")?;
    let (ticks, behind_ticks) = cut_number(behind, b' ')?;
    let (window, behind_window) = cut_number(behind_ticks, b' ')?;
    let (many, rest) = cut_number(behind_window, b'\n')?;
    if ticks > 1_000_000_000 || window < 1 || window > 1_000_000 || many > 4096 {
        return None;
    }
    Some((ticks, window, many, rest))
}

// Cuts the line of this window and buffer from a text: the letters of its puts, `A` accepted or `F` full, those of its
// takes, `G` got or `E` empty, and the text after it. `None` exactly where the text does not begin with such a line.
pub(crate) fn cut_line(text: &[u8], window: u64, buffer: u64) -> Option<(&[u8], &[u8], &[u8])>
    ensures found { IfSome result (λ p. (log : Answers) × (p.0.now ≡ letters 65 70 log.puts)
        × (p.1.now ≡ letters 71 69 log.takes) × (text.now ≡ line window buffer log ++ p.2.now)) }
    ensures only { (log : Answers) (f : List ℕ) → text.now ≡ line window buffer log ++ f
        → IsSomeAnd result (λ p. (p.0.now ≡ letters 65 70 log.puts) × (p.1.now ≡ letters 71 69 log.takes)
        × (p.2.now ≡ f)) }
{
    let behind_window = cut_counted(text, b"window ", window)?;
    let behind_place = cut_counted(behind_window, b"buffer ", buffer)?;
    let (puts, behind_puts) = cut_letters(behind_place, b"puts ", b' ', b'A', b'F')?;
    let (takes, rest) = cut_letters(behind_puts, b"takes ", b'\n', b'G', b'E')?;
    Some((puts, takes, rest))
}

// Cuts a word, exactly this number and a space from the front of a text, and returns the text after them; `None` where
// it does not begin so.
fn cut_counted<'a>(text: &'a [u8], word: &[u8], number: u64) -> Option<&'a [u8]>
    ensures found { IfSome result (λ r. text.now ≡ word.now ++ (decimal number ++ 32 ∷ r.now)) }
    ensures only { (f : List ℕ) → text.now ≡ word.now ++ (decimal number ++ 32 ∷ f)
        → IsSomeAnd result (λ r. r.now ≡ f) }
{
    let behind = cut_word(text, word)?;
    let (found, rest) = cut_number(behind, b' ')?;
    if found != number {
        return None;
    }
    Some(rest)
}

// The place of the first byte of a text that is `stop`; `None` where there is none.
fn first_mark(text: &[u8], stop: u8) -> Option<usize>
    ensures { result ≡ position (λ b. b == stop) text.now }
{
    text.iter().position(|byte| *byte == stop)
}

// Cuts a text at its first byte that is `stop`: the text before it and the text after it; `None` where there is none.
fn cut_at(text: &[u8], stop: u8) -> Option<(&[u8], &[u8])>
    ensures found { IfSome result (λ p. text.now ≡ p.0.now ++ stop ∷ p.1.now) }
    ensures only { (w f : List ℕ) → Lacks stop w → text.now ≡ w ++ stop ∷ f
        → IsSomeAnd result (λ p. (p.0.now ≡ w) × (p.1.now ≡ f)) }
{
    let mark = first_mark(text, stop)?;
    Some((&text[..mark], &text[mark + 1..]))
}

// Cuts a decimal number from the front of a text, up to the first byte that is `stop`: the number, and the text after
// that byte. `None` where no such number stands there.
fn cut_number(text: &[u8], stop: u8) -> Option<(u64, &[u8])>
    requires { stop < 48 }
    ensures found { IfSome result (λ p. text.now ≡ decimal p.0 ++ stop ∷ p.1.now) }
    ensures only { (n : ℕ) (f : List ℕ) → n < 2 ^ 64 → text.now ≡ decimal n ++ stop ∷ f
        → IsSomeAnd result (λ p. (p.0 ≡ n) × (p.1.now ≡ f)) }
{
    let (front, rest) = cut_at(text, stop)?;
    let number = read_u64(front)?;
    Some((number, rest))
}

// Cuts this word from the front of a text: the text after it; `None` where the text does not begin with it.
fn cut_word<'a>(text: &'a [u8], word: &[u8]) -> Option<&'a [u8]>
    ensures found { IfSome result (λ r. text.now ≡ word.now ++ r.now) }
    ensures only { (f : List ℕ) → text.now ≡ word.now ++ f → IsSomeAnd result (λ r. r.now ≡ f) }
{
    text.strip_prefix(word)
}

// Whether a text tells some answers in a trace: a letter for each, `one` for true and `other` for false, or a stroke
// alone if there is no answer.
fn are_letters(text: &[u8], one: u8, other: u8) -> bool
    ensures { result ≡ are_letters one other text.now }
{
    match text {
        [] => false,
        [only] => *only == b'-' || (*only == one || *only == other),
        _ => all_letters(text, one, other),
    }
}

// Whether each byte of a text is a letter of an answer in a trace, `one` for true or `other` for false.
fn all_letters(text: &[u8], one: u8, other: u8) -> bool
    ensures { result ≡ list_all (is_letter one other) text.now }
{
    text.iter().all(|b| *b == one || *b == other)
}

// Cuts this word and the letters of answers behind it from a text, up to the first byte that is `stop`: the letters,
// and the text after that byte. `one` is the letter for true, `other` for false. `None` where the text does not begin
// so.
fn cut_letters<'a>(
    text: &'a [u8],
    word: &[u8],
    stop: u8,
    one: u8,
    other: u8,
) -> Option<(&'a [u8], &'a [u8])>
    requires one { one ≢ stop }
    requires other { other ≢ stop }
    requires none { 45 ≢ stop }
    ensures found { IfSome result (λ p. (answers : List Bool) × (p.0.now ≡ letters one other answers)
        × (text.now ≡ word.now ++ (p.0.now ++ stop ∷ p.1.now))) }
    ensures only { (answers : List Bool) (f : List ℕ) → text.now ≡ word.now ++ (letters one other answers ++ stop ∷ f)
        → IsSomeAnd result (λ p. (p.0.now ≡ letters one other answers) × (p.1.now ≡ f)) }
{
    let behind = cut_word(text, word)?;
    let (front, rest) = cut_at(behind, stop)?;
    if !are_letters(front, one, other) {
        return None;
    }
    Some((front, rest))
}
