// What stands on both sides of a byte of a text.
ghost use Rattle.std.specs.Prelude.{◌≡◌, take, drop};

/// The bytes of a text before byte `at`, counted from 0; all where the text is shorter.
pub fn before(text: &[u8], at: usize) -> &[u8]
    ensures { result.now ≡ take at text.now }
{
    &text[..at.min(text.len())]
}

/// The bytes of a text from byte `at` on, counted from 0; none where the text is shorter.
pub fn behind(text: &[u8], at: usize) -> &[u8]
    ensures { result.now ≡ drop at text.now }
{
    let (_, behind) = text.split_at(at.min(text.len()));
    behind
}
