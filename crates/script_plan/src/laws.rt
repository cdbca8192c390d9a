// What is promised of a text's plan and fault. A caller that needs a law calls its function, which does nothing.
ghost use Rattle.std.specs.Prelude.{◌≡◌, ℕ, List, length};
ghost use Rattle.plan_core.specs.declared.plan.Plan.{Plan};
ghost use Rattle.script_plan.specs.declared.fault.ScriptFault.{ScriptFault};
ghost use Rattle.script_plan.specs.Plans.{IsPlan, IsPlanFault};
ghost use Rattle.script_plan.specs.Sources.{HasSources};

/// A law, by a function that only calls others: a text has one plan or one fault at most, and never both.
pub fn one_answer()
    ensures plan { (text : List ℕ) (p q : Plan) → IsPlan text p → IsPlan text q → p ≡ q }
    ensures apart { (text : List ℕ) (p : Plan) (f : ScriptFault) → IsPlan text p → IsPlanFault text f → ⊥ }
    ensures fault { (text : List ℕ) (f g : ScriptFault) → IsPlanFault text f → IsPlanFault text g → f ≡ g }
{
    script_parse::laws::one_fault();
    eval_meaning::laws::one_plan();
}

/// A law, by a function that only calls others: a text has at most one list of the calls that make the sources of its
/// plan, one call for each source.
pub fn one_list_of_calls()
    ensures plan { (text : List ℕ) (p : Plan) (calls : List ℕ) → HasSources text p calls → IsPlan text p }
    ensures one { (text : List ℕ) (p q : Plan) (calls others : List ℕ) → HasSources text p calls
        → HasSources text q others → calls ≡ others }
    ensures each { (text : List ℕ) (p : Plan) (calls : List ℕ) → HasSources text p calls
        → length calls ≡ length p.nodes }
{
    eval_meaning::laws::one_plan();
    eval_meaning::laws::plans_are_well_formed();
}
