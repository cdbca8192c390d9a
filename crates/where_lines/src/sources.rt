// The call that makes a source.
ghost use Rattle.std.specs.Prelude.{◌≡◌, ◌≢◌, ◌≤◌, None, IfOk, IfSome, length, slice_get};
ghost use Rattle.plan_core.specs.declared.plan.Plan.{Plan};
ghost use Rattle.script_plan.specs.declared.fault.ScriptFault.TheVariants as fault;
ghost use Rattle.script_plan.specs.Plans.{IsPlan};
ghost use Rattle.where_lines.specs.Kept.{AreKept, IsCallOf, IsKept, SourcesAreKept};
ghost use Rattle.where_lines.specs.Sources.{IsSourceAt};

use crate::kept::Kept;
use crate::tokens::token_place;
use liq_base::Memory;
use script_eval::Sources;
use script_lex::Token;
use script_plan::{ScriptFault, laws, sources_of};
use std::alloc::Global;

/// The byte at which the call begins that makes the source of this number: of calls that run within each other, the
/// outermost. `None` where the script has no such source. The plan is read where it is not in `kept`, and put there.
pub fn source_place(
    alloc: Global,
    text: &[u8],
    kept: &mut Kept,
    source: u64,
) -> Result<Option<usize>, Memory>
    requires { IsKept text.now kept.old }
    ensures kept { IsKept text.now kept.new }
    ensures place { IfOk result (λ at. IfSome at (IsSourceAt text.now source)) }
    ensures none { IfOk result (λ at. at ≡ None → (plan : Plan) → IsPlan text.now plan → length plan.nodes ≤ source) }
{
    match kept_call(text, &kept.sources, source) {
        Some(call) => call_place(alloc, text, &mut kept.tokens, source, call),
        None => read_source(alloc, text, kept, source),
    }
}

// The token of the call that makes this source, by the calls that are kept of the script. `None` if none are kept, so
// that the script is to be read; `Some(None)` if they are kept, and there is no such source.
fn kept_call(_text: &[u8], kept: &Option<Sources>, source: u64) -> Option<Option<u32>>
    requires { SourcesAreKept _text.now kept.now }
    ensures { IfSome result (IsCallOf _text.now source) }
{
    match kept {
        Some(sources) => Some(call_of(sources.calls.as_slice(), source)),
        None => None,
    }
}

// Reads the plan and the calls that make its sources, and keeps them. The byte at which the call of this source begins;
// nothing where the script has no such source.
fn read_source(
    alloc: Global,
    text: &[u8],
    kept: &mut Kept,
    source: u64,
) -> Result<Option<usize>, Memory>
    requires { IsKept text.now kept.old }
    ensures kept { IsKept text.now kept.new }
    ensures place { IfOk result (λ at. IfSome at (IsSourceAt text.now source)) }
    ensures none { IfOk result (λ at. at ≡ None → (plan : Plan) → IsPlan text.now plan → length plan.nodes ≤ source) }
{
    laws::one_answer();
    match sources_of(alloc, text) {
        Ok(sources) => {
            let call = call_of(sources.calls.as_slice(), source);
            kept.sources = Some(sources);
            call_place(alloc, text, &mut kept.tokens, source, call)
        }
        Err(fault) => nowhere(&fault),
    }
}

// The byte at which the call begins whose token is `call`, the one that makes the source; nothing without a call.
fn call_place(
    alloc: Global,
    text: &[u8],
    kept: &mut Option<Vec<Token>>,
    _source: u64,
    call: Option<u32>,
) -> Result<Option<usize>, Memory>
    requires kept { AreKept text.now kept.old }
    requires call { IsCallOf text.now _source call }
    ensures kept { AreKept text.now kept.new }
    ensures place { IfOk result (λ at. IfSome at (IsSourceAt text.now _source)) }
    ensures none { IfOk result (λ at. at ≡ None → (plan : Plan) → IsPlan text.now plan → length plan.nodes ≤ _source) }
{
    laws::one_answer();
    match call {
        Some(token) => token_place(alloc, text, kept, u64::from(token)),
        None => Ok(None),
    }
}

// The token of the call that makes the source of this number, where `calls` has one for each source.
fn call_of(calls: &[u32], source: u64) -> Option<u32>
    ensures { result ≡ slice_get calls.now source }
{
    calls.get(source as usize).copied()
}

/// The place in a script that has a fault, so that it has no plan: none. Where memory was refused it is not known, and
/// that is the error.
pub fn nowhere(told: &ScriptFault) -> Result<Option<usize>, Memory>
    ensures nothing { IfOk result (λ at. at ≡ None) }
    ensures fault { IfOk result (λ at. told.now ≢ fault.Memory) }
{
    match told {
        ScriptFault::Memory => Err(Memory),
        ScriptFault::Lex(_) => Ok(None),
        ScriptFault::Parse(_) => Ok(None),
        ScriptFault::Type(_) => Ok(None),
        ScriptFault::Eval(_) => Ok(None),
    }
}
