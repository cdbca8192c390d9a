// The plan of a text.
ghost use Rattle.std.specs.Prelude.{◌≡◌, ◌≢◌, Ok, IfOk, IfErr};
ghost use Rattle.eval_meaning.specs.Scripts.{evaluation};
ghost use Rattle.plan_core.specs.Plans.{IsWellFormed};
ghost use Rattle.script_grammar.specs.Placed.{IsPlaced};
ghost use Rattle.script_grammar.specs.View.{view_script};
ghost use Rattle.script_plan.specs.declared.fault.ScriptFault.TheVariants as fault;
ghost use Rattle.script_plan.specs.Plans.{IsPlan, IsPlanFault, Spells};
ghost use Rattle.script_plan.specs.Stages.{HasPlan, IsOfEvaluation, IsOfScript, IsOfTyping};
ghost use Rattle.typing_rules.specs.Answers.{IsTyped};

use crate::fault::ScriptFault;
use plan_core::Plan;
use script_eval::eval;
use script_grammar::tree::Script;
use script_lex::lex;
use script_parse::parse;
use std::alloc::Global;
use type_infer::infer;
use typing_rules::Use;

/// The plan of the script that these bytes spell, or the first fault of the bytes. Want of memory may come in place of
/// either.
///
/// The stages are asked in order: tokens, the tree, types, evaluation. What a stage needed is freed before the next
/// large one begins.
pub fn plan_of(alloc: Global, text: &[u8]) -> Result<Plan, ScriptFault>
    ensures plan { IfOk result (λ p. IsPlan text.now p) }
    ensures well_formed { IfOk result (λ p. IsWellFormed p) }
    ensures fault { IfErr result (λ e. e ≢ fault.Memory → IsPlanFault text.now e) }
{
    let script = script_of(alloc, text)?;
    plan_of_script(alloc, &script)
}

// The script that these bytes spell, or their first fault. Its tokens are freed here.
pub(crate) fn script_of(alloc: Global, text: &[u8]) -> Result<Script, ScriptFault>
    ensures spelled { IfOk result (λ s. Spells text.now (view_script s)) }
    ensures fault { IfErr result (λ e. e ≢ fault.Memory → IsPlanFault text.now e) }
{
    let tokens = lex(alloc, text)?;
    let script = parse(alloc, text, &tokens)?;
    Ok(script)
}

// The plan of a script, or the fault of its names and types or, where these are right, of its evaluation.
fn plan_of_script(alloc: Global, script: &Script) -> Result<Plan, ScriptFault>
    requires { IsPlaced 0 (view_script script.now) }
    ensures plan { IfOk result (λ p. HasPlan (view_script script.now) p) }
    ensures well_formed { IfOk result (λ p. IsWellFormed p) }
    ensures fault { IfErr result (IsOfScript (view_script script.now)) }
{
    let uses = uses_of(alloc, script)?;
    evaluated(alloc, script, &uses)
}

// What each name of a script stands for, or the fault of its types. What else inference made is freed here.
pub(crate) fn uses_of(alloc: Global, script: &Script) -> Result<Vec<Use>, ScriptFault>
    requires { IsPlaced 0 (view_script script.now) }
    ensures typed { IfOk result (λ uses. IsTyped (view_script script.now) uses.items) }
    ensures fault { IfErr result (IsOfTyping (view_script script.now)) }
{
    let uses = infer(alloc, script)?;
    Ok(uses)
}

// The plan of a script, evaluated with what its names stand for (`uses`), or the fault of its evaluation.
fn evaluated(alloc: Global, script: &Script, uses: &[Use]) -> Result<Plan, ScriptFault>
    requires placed { IsPlaced 0 (view_script script.now) }
    requires typed { IsTyped (view_script script.now) uses.now }
    ensures plan { IfOk result (λ p. evaluation (view_script script.now) uses.now ≡ Ok p) }
    ensures well_formed { IfOk result (λ p. IsWellFormed p) }
    ensures fault { IfErr result (IsOfEvaluation (view_script script.now) uses.now) }
{
    let plan = eval(alloc, script, uses)?;
    Ok(plan)
}
