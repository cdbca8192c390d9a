// What is promised of names. A caller that needs the law calls its function, which does nothing.
ghost use Rattle.std.specs.Prelude.{◌≡◌, ℕ, List};
ghost use Rattle.plan_blames.specs.Texts.{escaped, unescaped};

/// A law of escaped names in pictures: a name can be read back from its escaped text, so different names have
/// different texts.
pub fn names_come_back()
    ensures { (name : List ℕ) → unescaped (escaped name) ≡ name }
{}
