// What the words of a call ask for.
ghost use Rattle.std.specs.Prelude.{◌≡◌};
ghost use Rattle.about_cli.specs.Words.{verb_of};

/// What is asked about a script.
#[derive(Clone, Copy, Debug, PartialEq, Eq)]
pub enum Verb {
    /// The place of each line of the input that names one.
    Where,

    /// What is told of the script alone.
    Tell(Question),
}

/// What is told of a script.
#[derive(Clone, Copy, Debug, PartialEq, Eq)]
pub enum Question {
    /// The week of its switches.
    Week,

    /// The picture of its plan.
    Picture,

    /// Its plan, and what becomes of each file that it plays.
    Files,

    /// The hours of its switches.
    Hours,

    /// Its tokens.
    Tokens,
}

/// The verb that the first word of a call names, as `where` or `picture`; `None` where it names none.
pub fn verb_of(word: &str) -> Option<Verb>
    ensures { result ≡ verb_of word.now }
{
    if word == "where" {
        Some(Verb::Where)
    } else if word == "week" {
        Some(Verb::Tell(Question::Week))
    } else if word == "picture" {
        Some(Verb::Tell(Question::Picture))
    } else if word == "files" {
        Some(Verb::Tell(Question::Files))
    } else if word == "hours" {
        Some(Verb::Tell(Question::Hours))
    } else if word == "tokens" {
        Some(Verb::Tell(Question::Tokens))
    } else {
        None
    }
}
