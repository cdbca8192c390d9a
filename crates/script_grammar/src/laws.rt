// What the grammar promises of all scripts and of all lists of tokens. A caller that needs a law calls its function,
// which does nothing.
ghost use Rattle.std.specs.Prelude.{◌≡◌, ℕ, ◌+◌, ◌-◌, ◌<◌, ◌≤◌, ◌++◌, List, [], length, All, Ok, Err};
ghost use Rattle.script_lex.specs.declared.token.TokenKind.{TokenKind};
ghost use Rattle.script_grammar.specs.Tree.{Sort, Tree, AStmt, Script};
ghost use Rattle.script_grammar.specs.Ats.{ats};
ghost use Rattle.script_grammar.specs.Spelling.{spell, spelling};
ghost use Rattle.script_grammar.specs.Bare.{bare};
ghost use Rattle.script_grammar.specs.Placed.{IsPlaced};
ghost use Rattle.script_grammar.specs.ReadScript.{no_place, script};
ghost use Rattle.script_grammar.specs.Steady.{peek};
ghost use Rattle.script_grammar.specs.Stops.{Begun};

/// No list of tokens has two scripts: two that are spelled alike differ at most in their fields `at`, the indices of
/// tokens.
pub fn one_script()
    ensures one { (a b : Script) → spelling a ≡ spelling b → bare a ≡ bare b }
{}

/// No list of tokens has two scripts whose fields `at` are right, each the index of its token: two that are spelled
/// alike are equal in all.
pub fn one_placed_script()
    ensures one { (a b : Script) → IsPlaced 0 a → IsPlaced 0 b → spelling a ≡ spelling b → a ≡ b }
{}

/// Reading gives back each script from its spelling, but for its fields `at`, the indices of tokens.
pub fn reads_again()
    ensures again { (s : Script) → script no_place (spelling s) ≡ Ok (bare s, []) }
{}

/// Each statement has a token.
pub fn statements_have_tokens()
    ensures some { (statement : Tree AStmt) → 0 < length (spell statement) }
{}

/// Each field `at` of a tree whose fields are right is the index of a token of that tree.
pub fn ats_are_within()
    ensures within { (s : Sort) (i : ℕ) (t : Tree s) → IsPlaced i t
        → All (λ at. (i ≤ at) × (at < i + length (spell t))) (ats t) }
{}

/// A script that is read has all the tokens for its spelling, and each field `at` is the index of its token.
/// Where reading stops, the tokens before begin the spelling of a script.
pub fn reads_spellings()
    ensures found { (total : ℕ) (w : List TokenKind) (s : Script) (r : List TokenKind)
        → script (λ left. total - left) w ≡ Ok (s, r)
        → (r ≡ []) × (spelling s ≡ w) × ((i : ℕ) → i + length w ≡ total → IsPlaced i s) }
    ensures begun { (stamp : ℕ → ℕ) (w : List TokenKind) (k : ℕ) → script stamp w ≡ Err k → Begun spelling w k }
{}

/// Where reading fails at a token, it fails there whatever stands behind that token, and whatever the fields `at` are
/// made of.
pub fn faults_are_steady()
    ensures steady { (stamp : ℕ → ℕ) (before after v : List TokenKind)
        → script stamp (before ++ after) ≡ Err (length after) → peek v ≡ peek after
        → script no_place (before ++ v) ≡ Err (length v) }
{}
