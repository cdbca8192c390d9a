// What follows for a script all of whose statements were typed. A caller that needs the law calls its function, which
// does nothing.
ghost use Rattle.std.specs.Prelude.{◌≡◌, List, [], None};
ghost use Rattle.script_grammar.specs.Tree.{Script};
ghost use Rattle.type_terms.specs.Extends.{HasDefaults};
ghost use Rattle.type_terms.specs.Table.{Table};
ghost use Rattle.typing_rules.specs.Answers.{IsTyped};
ghost use Rattle.typing_rules.specs.NameFaults.{first_fault};
ghost use Rattle.typing_rules.specs.Scoping.{meanings_of, target_in};
ghost use Rattle.type_steps.specs.Statements.{AreTypings, Done, uses_under};
ghost use Rattle.type_steps.specs.Whole.{AreWhole};

/// A law of inference: if the typings of a script are the solutions of a substitution, and each statement has its uses
/// with all their kinds, the script is typed with the uses under the default solution.
pub fn defaults_are_the_answer()
    ensures typed { (s : Table) (script : Script) (xs : List Done) → AreWhole script xs
        → AreTypings s (target_in (meanings_of script)) script xs → (default : HasDefaults s)
        → first_fault 1 [] script ≡ None → IsTyped script (uses_under default.at xs) }
{}
