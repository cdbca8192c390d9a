// The plan of a text, with the calls that make its sources.
ghost use Rattle.std.specs.Prelude.{◌≡◌, ◌≢◌, Ok, IfErr, IfOk, length};
ghost use Rattle.eval_meaning.specs.Scripts.{evaluation, sources};
ghost use Rattle.plan_core.specs.Plans.{IsWellFormed};
ghost use Rattle.script_grammar.specs.Placed.{IsPlaced};
ghost use Rattle.script_grammar.specs.View.{view_script};
ghost use Rattle.script_plan.specs.declared.fault.ScriptFault.TheVariants as fault;
ghost use Rattle.script_plan.specs.Plans.{IsPlan, IsPlanFault};
ghost use Rattle.script_plan.specs.Sources.{AreSources, HasSources};
ghost use Rattle.script_plan.specs.Stages.{HasPlan, IsOfEvaluation, IsOfScript};
ghost use Rattle.typing_rules.specs.Answers.{IsTyped};

use crate::fault::ScriptFault;
use crate::plan::{script_of, uses_of};
use script_eval::{Sources, eval_with_calls};
use script_grammar::tree::Script;
use std::alloc::Global;
use typing_rules::Use;

/// The plan of the script that these bytes spell, and for each of its sources the token of the call that made it: of
/// calls that run within each other, the outermost. Or the first fault of the bytes; want of memory may come in place
/// of either.
pub fn sources_of(alloc: Global, text: &[u8]) -> Result<Sources, ScriptFault>
    ensures calls { IfOk result (λ s. HasSources text.now s.plan s.calls) }
    ensures plan { IfOk result (λ s. IsPlan text.now s.plan) }
    ensures well_formed { IfOk result (λ s. IsWellFormed s.plan) }
    ensures each { IfOk result (λ s. length s.calls ≡ length s.plan.nodes) }
    ensures fault { IfErr result (λ e. e ≢ fault.Memory → IsPlanFault text.now e) }
{
    let script = script_of(alloc, text)?;
    sources_in_script(alloc, &script)
}

// The plan of a script, with the call that made each source; or the fault of its names and types or, where these are
// right, of its evaluation.
fn sources_in_script(alloc: Global, script: &Script) -> Result<Sources, ScriptFault>
    requires { IsPlaced 0 (view_script script.now) }
    ensures calls { IfOk result (λ s. AreSources (view_script script.now) s.plan s.calls) }
    ensures plan { IfOk result (λ s. HasPlan (view_script script.now) s.plan) }
    ensures well_formed { IfOk result (λ s. IsWellFormed s.plan) }
    ensures each { IfOk result (λ s. length s.calls ≡ length s.plan.nodes) }
    ensures fault { IfErr result (IsOfScript (view_script script.now)) }
{
    let uses = uses_of(alloc, script)?;
    made(alloc, script, &uses)
}

// The plan of a script, evaluated with what its names stand for (`uses`), and for each source the call that made it;
// or the fault of its evaluation.
fn made(alloc: Global, script: &Script, uses: &[Use]) -> Result<Sources, ScriptFault>
    requires placed { IsPlaced 0 (view_script script.now) }
    requires typed { IsTyped (view_script script.now) uses.now }
    ensures calls { IfOk result (λ s. sources (view_script script.now) uses.now ≡ Ok (s.plan, s.calls)) }
    ensures plan { IfOk result (λ s. evaluation (view_script script.now) uses.now ≡ Ok s.plan) }
    ensures well_formed { IfOk result (λ s. IsWellFormed s.plan) }
    ensures each { IfOk result (λ s. length s.calls ≡ length s.plan.nodes) }
    ensures fault { IfErr result (IsOfEvaluation (view_script script.now) uses.now) }
{
    let found = eval_with_calls(alloc, script, uses)?;
    Ok(found)
}
