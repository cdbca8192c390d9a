// How a line names a place.
ghost use Rattle.std.specs.Prelude.{◌≡◌};
ghost use Rattle.script_places.specs.Naming.{begins, begins_byte, begins_statement, begins_token, form_of, source_form};
ghost use Rattle.script_places.specs.Naming.{text_form};

/// How a line names a place, by the words that it begins with.
#[derive(Clone, Copy)]
pub enum Form {
    /// At its end a byte.
    Byte,

    /// At its end a token.
    Token,

    /// Behind its first words a statement that fits no types.
    Clash,

    /// Behind its first words a statement.
    Statement,

    /// Behind its first words a source.
    Source,

    /// Behind its first words a source that crossfades.
    Crossfade,

    /// Behind its first word a source, in a line of `week_program`.
    Switch,

    /// From this byte on a text, without so many bytes at the end.
    Text { start: usize, after: usize },

    /// Behind its first words an output.
    Fallible,

    /// It names none.
    Nothing,
}

/// How a line of a fault names its place in the script (by a byte, token, statement, source or text), by the words that
/// it begins with. A `Clash` is a statement that fits no types.
pub fn form_of(line: &[u8]) -> Form
    ensures { result ≡ form_of line.now }
{
    if begins_byte(line) {
        Form::Byte
    } else if begins_token(line) {
        Form::Token
    } else if begins(line, b"E12 statement ") {
        Form::Clash
    } else if begins_statement(line) {
        Form::Statement
    } else {
        source_form(line)
    }
}

// Whether a line begins like those faults, E02 to E04, that name a byte of the script.
fn begins_byte(line: &[u8]) -> bool
    ensures { result ≡ begins_byte line.now }
{
    begins(line, b"E02 ") || begins(line, b"E03 ") || begins(line, b"E04 ")
}

// Whether a line begins like those faults, E06 to E11 and E14, that name a token of the script.
fn begins_token(line: &[u8]) -> bool
    ensures { result ≡ begins_token line.now }
{
    begins(line, b"E06 ")
        || begins(line, b"E07 ")
        || begins(line, b"E08 ")
        || begins(line, b"E09 ")
        || begins(line, b"E10 ")
        || begins(line, b"E11 ")
        || begins(line, b"E14 ")
}

// Whether a line begins like those faults, E13 and E15, that name a statement of the script.
fn begins_statement(line: &[u8]) -> bool
    ensures { result ≡ begins_statement line.now }
{
    begins(line, b"E13 statement ") || begins(line, b"E15 statement ")
}

// How a line of a fault, or of the week's plan, names a source or a text, by the words that it begins with; `Nothing`
// where it names none.
fn source_form(line: &[u8]) -> Form
    ensures { result ≡ source_form line.now }
{
    if begins(line, b"E26 source ") {
        Form::Source
    } else if begins(line, b"E27 crossfade ") {
        Form::Crossfade
    } else if begins(line, b"switch ") {
        Form::Switch
    } else {
        text_form(line)
    }
}

// How a line of a fault names a text of the script, such as a file's name, or an output that may be silent; `Nothing`
// where it names none. The text begins behind the first words, at byte `start`, and the last `after` bytes of the line
// are no part of it.
fn text_form(line: &[u8]) -> Form
    ensures { result ≡ text_form line.now }
{
    if begins(line, b"E18 two outputs ") {
        Form::Text {
            start: 16,
            after: 0,
        }
    } else if begins(line, b"E20 missing file ") {
        Form::Text {
            start: 17,
            after: 0,
        }
    } else if begins(line, b"E21 bad audio ") {
        Form::Text {
            start: 14,
            after: 3,
        }
    } else if begins(line, b"E23 file too large ") {
        Form::Text {
            start: 19,
            after: 0,
        }
    } else if begins(line, b"E25 fallible output ") {
        Form::Fallible
    } else if begins(line, b"E29 output too long ") {
        Form::Text {
            start: 20,
            after: 0,
        }
    } else {
        Form::Nothing
    }
}

// Whether a line of a fault begins with these bytes.
fn begins(line: &[u8], words: &[u8]) -> bool
    ensures { result ≡ begins line.now words.now }
{
    line.starts_with(words)
}
