// The lines of scripts that have no plan.
ghost use Rattle.std.specs.Prelude.{◌≡◌, IfOk, string_bytes};
ghost use Rattle.refusal_lines.specs.Lines.{limit_name, plan_line};

use crate::forms::{at_statement, at_token, of_name, plain};
use liq_base::Memory;
use script_values::{EvalFault, Limit};
use std::alloc::Global;

/// The line that is printed for a script whose evaluation makes no plan. For want of memory it is empty.
pub fn plan_line(alloc: Global, fault: &EvalFault) -> Result<String, Memory>
    ensures { IfOk result (λ line. string_bytes line ≡ plan_line fault.now) }
{
    match fault {
        EvalFault::BadSetting { stmt } => at_statement(alloc, "E13", *stmt, "bad setting"),
        EvalFault::BadValue { stmt, at } => at_token(alloc, "E14", *stmt, "bad value", *at),
        EvalFault::TooMuchWork { stmt } => at_statement(alloc, "E15", *stmt, "too much work"),
        EvalFault::TooManySources => plain(alloc, "E16 too many sources"),
        EvalFault::NoOutput => plain(alloc, "E17 no output"),
        EvalFault::SameOutput(name) => of_name(alloc, "E18 two outputs", name.as_str()),
        EvalFault::TooLarge(limit) => of_name(alloc, "E19 too large:", limit_name(*limit)),
        EvalFault::Memory => Ok(String::new(alloc)),
    }
}

// The word by which a printed line calls a limit of the language.
fn limit_name(limit: Limit) -> &'static str
    ensures { result.now ≡ limit_name limit }
{
    match limit {
        Limit::Calls => "calls",
        Limit::Outputs => "outputs",
        Limit::Children => "children",
        Limit::Crossfades => "crossfades",
        Limit::Overlap => "overlap",
        Limit::Prefill => "prefill",
        Limit::Capacity => "capacity",
    }
}
