// What follows from the meaning of a script. A caller that needs a law calls its function, which does nothing.
ghost use Rattle.std.specs.Prelude.{◌≡◌, ℕ, List, Ok, length};
ghost use Rattle.eval_meaning.specs.BuiltinSafety.{BuiltinsAreSafe};
ghost use Rattle.eval_meaning.specs.Safety.{IsNotStuck};
ghost use Rattle.eval_meaning.specs.Scripts.{evaluation, sources};
ghost use Rattle.plan_core.specs.declared.plan.Plan.{Plan};
ghost use Rattle.plan_core.specs.Plans.{IsWellFormed};
ghost use Rattle.script_grammar.specs.Placed.{IsPlaced};
ghost use Rattle.script_grammar.specs.Tree.{Script};
ghost use Rattle.typing_rules.specs.Answers.{IsTyped, IsTypedScript};
ghost use Rattle.typing_rules.specs.declared.uses.Use.{Use};

/// A call of a builtin with arguments of the types of its row in the table of builtins, and with its open kinds (mono
/// or stereo), gives a value of the type of its row or a fault that is told. It keeps the plan's nodes that are there.
pub fn builtins_are_safe()
    ensures safe { BuiltinsAreSafe }
{}

/// The plan that a script's evaluation ends with is well formed, and each of its sources has a call that made it.
pub fn plans_are_well_formed()
    ensures made { (script : Script) (uses : List Use) (plan : Plan) → evaluation script uses ≡ Ok plan
        → IsWellFormed plan }
    ensures calls { (script : Script) (uses : List Use) (plan : Plan) (calls : List ℕ)
        → sources script uses ≡ Ok (plan, calls) → length calls ≡ length plan.nodes }
{}

/// The evaluation of a typed script meets no value of a wrong type: it ends with a plan or with a fault that is told.
pub fn typed_scripts_are_not_stuck()
    ensures told { (script : Script) (uses : List Use) → IsPlaced 0 script → IsTypedScript script uses
        → IsNotStuck (evaluation script uses) }
{}

/// Whichever of the uses that typing allows a script it is given, evaluation ends with the same plan or the same fault,
/// and the same calls make its sources.
pub fn one_plan()
    ensures one { (script : Script) (uses others : List Use) → IsPlaced 0 script → IsTyped script uses
        → IsTyped script others → evaluation script uses ≡ evaluation script others }
    ensures sources { (script : Script) (uses others : List Use) → IsPlaced 0 script → IsTyped script uses
        → IsTyped script others → sources script uses ≡ sources script others }
{
    script_grammar::laws::ats_are_within();
}
