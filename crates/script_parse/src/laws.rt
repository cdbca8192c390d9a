// What faults of tokens promise.
ghost use Rattle.std.specs.Prelude.{◌≡◌, List};
ghost use Rattle.script_lex.specs.declared.token.TokenKind.{TokenKind};
ghost use Rattle.script_parse.specs.declared.fault.ParseFault.{ParseFault};
ghost use Rattle.script_parse.specs.Answer.{IsFault};

/// A law, by a function that does nothing: no list of tokens has two faults.
pub fn one_fault()
    ensures one { (tokens : List TokenKind) (a b : ParseFault) → IsFault tokens a → IsFault tokens b → a ≡ b }
{}
