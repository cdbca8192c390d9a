// How far the front of a slice goes.
ghost use Rattle.std.specs.Prelude.{◌≡◌, ◌≤◌, length, false};
ghost use Rattle.script_lex.specs.Bytes.{is_letter, is_word, is_blank, is_quote, is_unit, is_escapable, is_inner};
ghost use Rattle.script_lex.specs.Bytes.{starts_part, starts_digit};
ghost use Rattle.script_lex.specs.Reading.{after_digits, after_name, front, tail};
ghost use Rattle.script_lex.specs.Tokens.{between};

/// Whether a byte is an ASCII letter or `_`, with which a name or a part of one begins.
pub fn is_letter(b: u8) -> bool
    ensures { result ≡ is_letter b }
{
    b.is_ascii_alphabetic() || b == b'_'
}

/// Whether a byte may stand within a part of a name: a letter, `_` or a digit.
pub fn is_word(b: u8) -> bool
    ensures { result ≡ is_word b }
{
    is_letter(b) || b.is_ascii_digit()
}

/// Whether a byte opens or closes a text: `"` or `'`.
pub fn is_quote(b: u8) -> bool
    ensures { result ≡ is_quote b }
{
    b == b'"' || b == b'\''
}

/// Whether a byte is the unit of a part of a time: `w`, `h`, `m` or `s`.
pub fn is_unit(b: u8) -> bool
    ensures { result ≡ is_unit b }
{
    b == b'w' || b == b'h' || b == b'm' || b == b's'
}

/// Whether a byte may stand behind a backslash in a text: a quote of either sort or a backslash.
pub fn is_escapable(b: u8) -> bool
    ensures { result ≡ is_escapable b }
{
    b == b'"' || b == b'\'' || b == b'\\'
}

/// Whether a byte is of a character that may stand in a text; the quote and the backslash are looked at before.
pub fn is_inner(b: u8) -> bool
    ensures { result ≡ is_inner b }
{
    (32 <= b && b <= 126) || 128 <= b
}

/// Whether a digit stands at the front of the bytes.
pub fn starts_digit(bytes: &[u8]) -> bool
    ensures { result ≡ starts_digit bytes.now }
{
    match bytes {
        [] => false,
        [first, ..] => first.is_ascii_digit(),
    }
}

/// The bytes behind the blanks and comments at the front.
pub fn after_blanks(bytes: &[u8]) -> &[u8]
    ensures rest { result.now ≡ between false bytes.now }
    ensures shorter { length result.now ≤ length bytes.now }
{
    let mut inside = false;
    let mut rest = bytes;
    while let [first, after @ ..] = rest {
        if inside {
            inside = *first != b'\n';
        } else if *first == b'#' {
            inside = true;
        } else if !is_blank(*first) {
            break;
        }
        rest = after;
    }
    rest
}

/// The bytes behind the digits at the front.
pub fn after_digits(bytes: &[u8]) -> &[u8]
    ensures rest { result.now ≡ after_digits bytes.now }
    ensures shorter { length result.now ≤ length bytes.now }
{
    let mut rest = bytes;
    while let [first, after @ ..] = rest {
        if !first.is_ascii_digit() {
            break;
        }
        rest = after;
    }
    rest
}

/// The bytes behind the name at the front, whose first letter was seen.
pub fn after_name(bytes: &[u8]) -> &[u8]
    ensures rest { result.now ≡ after_name bytes.now }
    ensures shorter { length result.now ≤ length bytes.now }
{
    let mut rest = bytes;
    while let [first, after @ ..] = rest {
        let goes_on = is_word(*first) || (*first == b'.' && starts_part(after));
        if !goes_on {
            break;
        }
        rest = after;
    }
    rest
}

/// The bytes before `rest`, which is the end of `bytes`.
pub fn front<'a>(bytes: &'a [u8], rest: &[u8]) -> &'a [u8]
    requires { length rest.now ≤ length bytes.now }
    ensures { result.now ≡ front bytes.now rest.now }
{
    &bytes[..bytes.len() - rest.len()]
}

/// The bytes behind the first one.
pub fn tail(bytes: &[u8]) -> &[u8]
    ensures tail { result.now ≡ tail bytes.now }
    ensures shorter { length result.now ≤ length bytes.now }
{
    match bytes {
        [] => bytes,
        [_, after @ ..] => after,
    }
}

// Whether a byte is blank: a space, a tab, CR or LF.
fn is_blank(b: u8) -> bool
    ensures { result ≡ is_blank b }
{
    b == b' ' || b == b'\t' || b == b'\r' || b == b'\n'
}

// Whether a part of a name begins at the front of the bytes: a letter or `_`.
fn starts_part(bytes: &[u8]) -> bool
    ensures { result ≡ starts_part bytes.now }
{
    match bytes {
        [] => false,
        [first, ..] => is_letter(*first),
    }
}
