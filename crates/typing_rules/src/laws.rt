// What follows from the rules of typing, for all scripts. A caller that needs a law calls its function, which does
// nothing.
ghost use Rattle.std.specs.Prelude.{◌≡◌, ◌⊎◌, ◌≤◌, ℕ, List, [], ◌∷◌, ◌++◌, Some};
ghost use Rattle.liq_base.specs.declared.memory.Kind.{Kind as a_kind};
ghost use Rattle.script_grammar.specs.Placed.{IsPlaced};
ghost use Rattle.script_grammar.specs.Tree.{Tree, ADef, Script};
ghost use Rattle.type_terms.specs.Ground.{Ground};
ghost use Rattle.typing_rules.specs.declared.fault.TypeFault.{TypeFault as a_fault};
ghost use Rattle.typing_rules.specs.declared.fault.TypeFault.TheVariants as fault;
ghost use Rattle.typing_rules.specs.declared.uses.Use.{Use as a_use};
ghost use Rattle.typing_rules.specs.Answers.{IsTyped, IsTypeFault};
ghost use Rattle.typing_rules.specs.Arguments.{GivenArgument, Matched};
ghost use Rattle.typing_rules.specs.Defs.{AreDefsOf, IsDefOf, LeadsInto, def_at};
ghost use Rattle.typing_rules.specs.Kinds.{around, kinds_in, read, target_at, target_said};
ghost use Rattle.typing_rules.specs.Scripts.{Entry, HasTyping, IsTypedTo, Places, Targets, behind, calls_behind};
ghost use Rattle.typing_rules.specs.Scripts.{def_token, first_of, function, params_of, sight};
ghost use Rattle.typing_rules.specs.Typing.{DefHas};
ghost use Rattle.typing_rules.specs.Uses.{use_at as the_use_at};

/// A script with a typing has no fault but want of memory.
pub fn typed_or_fault()
    ensures without { (script : Script) (uses : List a_use) (f : a_fault) → IsTyped script uses → IsTypeFault script f
        → f ≡ fault.Memory }
{}

/// Two faults of one script are the same, or one is want of memory.
pub fn one_fault()
    ensures one { (script : Script) (f g : a_fault) → IsTypeFault script f → IsTypeFault script g
        → (f ≡ fault.Memory) ⊎ ((g ≡ fault.Memory) ⊎ (f ≡ g)) }
{}

/// If the first statements of a script have a typing, so have fewer of them: the first `n` of a typed script, and
/// the first `n` where the first `k` have one.
pub fn fewer_statements()
    ensures first { (n : ℕ) (ts : Targets) (kinds : Places) (script : Script) (es fs : List Entry)
        → IsTypedTo ts kinds es script fs → (gs : List Entry) × IsTypedTo ts kinds es (first_of n script) gs }
    ensures shorter { (n k : ℕ) (ts : Targets) (script : Script) → n ≤ k → HasTyping ts (first_of k script)
        → HasTyping ts (first_of n script) }
{}

/// A law in both directions: a call of the newest def gives `g` exactly if its text has a typing with result `g`.
/// `gs` are the types of the arguments, and `us` those that the parameters take of them.
/// The text is read behind this call, at token `at`, and behind the calls of `chain` that lead to it.
pub fn newest_call()
    ensures typed { (ts : Targets) (kinds : Places) (es : List Entry) (d : Tree ADef) (chain : List ℕ) (at : ℕ)
        (gs : List (GivenArgument Ground)) (g : Ground)
        → calls_behind ts kinds (function d ∷ es) chain at (def_token d) gs g
        → (us : List Ground) × Matched (params_of d) gs us × DefHas (sight ts kinds es (at ∷ chain)) d us g }
    ensures call { (ts : Targets) (kinds : Places) (es : List Entry) (d : Tree ADef) (chain : List ℕ) (at : ℕ)
        (gs : List (GivenArgument Ground)) (g : Ground)
        → ((us : List Ground) × Matched (params_of d) gs us × DefHas (sight ts kinds es (at ∷ chain)) d us g)
        → calls_behind ts kinds (function d ∷ es) chain at (def_token d) gs g }
{}

/// A law in both directions: the text of def `d` has the same types behind a chain of calls as by itself.
/// `chain` has the tokens of the calls, the last one first. By itself the text has an empty chain, and each place of
/// `kinds` is read behind `chain` instead.
pub fn text_behind()
    ensures alone { (ts : Targets) (kinds : Places) (es : List Entry) (chain : List ℕ) (d : Tree ADef)
        (us : List Ground) (g : Ground) → DefHas (sight ts kinds es chain) d us g
        → DefHas (sight ts (behind chain kinds) es []) d us g }
    ensures called { (ts : Targets) (kinds : Places) (es : List Entry) (chain : List ℕ) (d : Tree ADef)
        (us : List Ground) (g : Ground) → DefHas (sight ts (behind chain kinds) es []) d us g
        → DefHas (sight ts kinds es chain) d us g }
{}

/// `around` gives the open kinds of the text to which a chain of calls leads, the last call first.
/// If the calls of `chain` lead to the kinds `inside`, the further calls of `c` are read from `inside` alone.
pub fn read_behind()
    ensures same { (given inside : List a_kind) (uses : List a_use) (chain : List ℕ)
        → around given uses chain ≡ Some inside → (c : List ℕ) → around given uses (c ++ chain) ≡ around inside uses c }
{}

/// A law for evaluation: the use that it finds at token `at` says what typing says of the name there.
/// Its target is the one that typing has. Its kinds are those that typing reads behind `chain`, the calls on the way
/// with the last one first, if these calls give the text around the name the open kinds `ks`.
pub fn looked_up()
    ensures target { (uses : List a_use) (at : ℕ) → target_said (the_use_at at uses) ≡ target_at uses at }
    ensures kinds { (uses : List a_use) (ks : List a_kind) (chain : List ℕ) (at : ℕ) → around [] uses chain ≡ Some ks
        → read [] uses chain at ≡ kinds_in (the_use_at at uses) ks }
{}

/// In a script whose parts have the numbers of their tokens, the search for a def by the token of its name finds that
/// def.
pub fn found_def()
    ensures found { (i : ℕ) (script : Script) (d : Tree ADef) → IsPlaced i script → IsDefOf script d
        → def_at (def_token d) script ≡ Some d }
{}

/// A call in a typed script leads to one def, to the statements before it and to a typing of its text there. The def is
/// the one that the search by `t`, the token of its name, finds. `at` is the token of the call, and `chain` has those
/// of the calls on the way, the last one first. `defs` says that each def among the entries of a typing is one of its
/// script.
pub fn leads_to()
    ensures leads { (script : Script) (ts : Targets) (kinds : Places) (es : List Entry) (chain : List ℕ) (at t : ℕ)
        (gs : List (GivenArgument Ground)) (g : Ground) → IsPlaced 0 script → AreDefsOf script es
        → calls_behind ts kinds es chain at t gs g → LeadsInto script ts kinds es chain at t gs g }
    ensures defs { (script : Script) (ts : Targets) (kinds : Places) (es : List Entry) → IsTypedTo ts kinds [] script es
        → AreDefsOf script es }
{}
