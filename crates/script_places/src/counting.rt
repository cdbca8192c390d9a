// Lines and characters, by the bytes before a place.
ghost use Rattle.std.specs.Prelude.{◌≡◌, ◌<◌, ◌≤◌, ◌∷◌, length, true};
ghost use Rattle.std.specs.Str.{is_utf8};
ghost use Rattle.script_places.specs.Counting.{line, are_utf8, width, characters, in_line, column};

use std::str;

/// The number of the line, from 1, of a place in a text, by the bytes before it: one more for each line feed.
pub fn line(before: &[u8]) -> usize
    ensures { result ≡ line before.now }
{
    let mut ends: usize = 0;
    for byte in before {
        ends += usize::from(*byte == b'\n');
    }
    ends + 1
}

/// The part of the line that stands before a place, by the bytes before it: those behind the last line feed, or all.
pub fn in_line(before: &[u8]) -> &[u8]
    ensures { result.now ≡ in_line before.now }
{
    let mut start = before.len();
    while start > 0 && before[start - 1] != b'\n' {
        start -= 1;
    }
    &before[start..]
}

// Whether these bytes are UTF-8.
fn is_utf8(bytes: &[u8]) -> bool
    ensures { result ≡ is_utf8 bytes.now }
{
    match str::from_utf8(bytes) {
        Ok(_) => true,
        Err(_) => false,
    }
}

// Whether there are `count` bytes at the front of these, and they are UTF-8.
#[tactic(auto, unfolding(crate::specs::Counting::are_utf8))]
fn are_utf8(count: usize, bytes: &[u8]) -> bool
    ensures same { result ≡ are_utf8 count bytes.now }
    ensures within { result ≡ true → count ≤ length bytes.now }
{
    count <= bytes.len() && is_utf8(&bytes[..count])
}

/// How many bytes the first character of a text has: 1 to 4, the shortest front that is UTF-8. A byte with which no
/// character begins counts as one.
pub fn width(bytes: &[u8]) -> usize
    requires { 0 < length bytes.now }
    ensures width { result ≡ width bytes.now }
    ensures some { 0 < result }
    ensures within { result ≤ length bytes.now }
{
    if are_utf8(1, bytes) {
        1
    } else if are_utf8(2, bytes) {
        2
    } else if are_utf8(3, bytes) {
        3
    } else if are_utf8(4, bytes) {
        4
    } else {
        1
    }
}

/// The first byte of the first character, and the bytes behind that character.
pub fn first_character(bytes: &[u8]) -> (u8, &[u8])
    requires { 0 < length bytes.now }
    ensures characters { characters bytes.now ≡ result.0 ∷ characters result.1.now }
    ensures shorter { length result.1.now < length bytes.now }
{
    let (_, behind) = bytes.split_at(width(bytes));
    (bytes[0], behind)
}

// How many characters these bytes have; a byte that begins none counts as one.
fn count(bytes: &[u8]) -> usize
    ensures count { result ≡ length (characters bytes.now) }
    ensures within { result ≤ length bytes.now }
{
    let mut count = 0;
    let mut rest = bytes;
    while !rest.is_empty() {
        let (_, behind) = first_character(rest);
        rest = behind;
        count += 1;
    }
    count
}

/// The column of a place in a text, in characters from 1, by the bytes before it: one more for each character of its
/// line.
pub fn column(before: &[u8]) -> usize
    ensures { result ≡ column before.now }
{
    count(in_line(before)) + 1
}
