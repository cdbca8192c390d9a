// The plan of a script and the calls of its sources: its statements in order, and the end of its settings.
ghost use Rattle.std.specs.Prelude.{◌≡◌, ◌≢◌, ℕ, Option, Some, None, [], IfOk, length, map, unwrap_or};
ghost use Rattle.std.specs.List.{list_any};
ghost use Rattle.eval_meaning.specs.Meaning.{call, choice, full};
ghost use Rattle.eval_meaning.specs.Scripts.{Answers, settings_ended, evaluation, settings_settled, sources, statement};
ghost use Rattle.eval_meaning.specs.Scripts.{statements, tick_of, top_scope, turned};
ghost use Rattle.eval_meaning.specs.Safety.{IsNotStuck};
ghost use Rattle.plan_core.specs.Plans.{IsWellFormed, is_output};
ghost use Rattle.script_grammar.specs.Placed.{IsPlaced};
ghost use Rattle.script_grammar.specs.Tree.{BindPart as a_binding};
ghost use Rattle.script_grammar.specs.View.{listed, view_bind, view_call, view_full, view_if, view_part, view_script};
ghost use Rattle.script_grammar.specs.View.{view_stmt};
ghost use Rattle.script_values.specs.declared.fault.EvalFault.TheVariants as told;
ghost use Rattle.script_values.specs.declared.fault.Stop.TheVariants.{Stuck};
ghost use Rattle.script_values.specs.Faults.{fault_in};
ghost use Rattle.script_values.specs.Gives.{Gives};
ghost use Rattle.script_values.specs.View.{view_value};
ghost use Rattle.script_values.specs.Views.{view_slot};
ghost use Rattle.typing_rules.specs.Answers.{IsTypedScript};

use eval_scope::{Defs, Globals, Scope, Uses};
use expression_eval::{call, choice, full, is_setting};
use fixed_text::Decimal;
use liq_base::limits::{MAX_CALLS, MAX_FRAME};
use plan_core::{Items, Plan, SinkPlan};
use script_grammar::tree::{Bind, Call, Full, If, Script, Stmt, StmtPart};
use script_values::{EvalFault, Machine, Slot, Stop, Value, fault_in};
use std::alloc::Global;
use typing_rules::Use;

// How many levels deep evaluation may nest: more than 200 levels of each of 17 bodies.
const LEVELS: usize = 4096;

/// The plan of a script, and for each of its nodes the token of the call that made it: of calls that run within each
/// other, the outermost.
#[derive(Debug, Drop)]
pub struct Sources {
    pub plan: Plan,
    pub calls: Items<u32>,
}

/// The plan of a typed script, or its first fault; `uses` tells what each name in it stands for. Want of memory may
/// come at any place. It is also the answer where a script nests deeper than any that parsing answers.
pub fn eval(alloc: Global, script: &Script, uses: &[Use]) -> Result<Plan, EvalFault>
    requires placed { IsPlaced 0 (view_script script.now) }
    requires typed { IsTypedScript (view_script script.now) uses.now }
    ensures exact { Answers (λ p. p) result (evaluation (view_script script.now) uses.now) }
    ensures well_formed { IfOk result (λ p. IsWellFormed p) }
{
    let made = eval_with_calls(alloc, script, uses)?;
    Ok(made.plan)
}

/// The plan of a typed script whose names stand for what `uses` says, with the calls that made its sources; or its
/// first fault. Want of memory may come at any place.
#[tactic(auto, using(crate::proofs::Answered::is_not_stuck))]
pub fn eval_with_calls(alloc: Global, script: &Script, uses: &[Use]) -> Result<Sources, EvalFault>
    requires placed { IsPlaced 0 (view_script script.now) }
    requires typed { IsTypedScript (view_script script.now) uses.now }
    ensures exact { Answers (λ s. (s.plan, s.calls)) result (sources (view_script script.now) uses.now) }
    ensures plan { Answers (λ s. s.plan) result (evaluation (view_script script.now) uses.now) }
    ensures well_formed { IfOk result (λ s. IsWellFormed s.plan) }
    ensures each { IfOk result (λ s. length s.calls ≡ length s.plan.nodes) }
{
    answered(alloc, script, uses)
}

// Evaluates a script after making two tables: of its defs, and of what each name stands for, by `uses`. It answers the
// plan and its calls, or the script's first fault.
fn answered(alloc: Global, script: &Script, uses: &[Use]) -> Result<Sources, EvalFault>
    requires { IsNotStuck (evaluation (view_script script.now) uses.now) }
    ensures { Answers (λ s. (s.plan, s.calls)) result (sources (view_script script.now) uses.now) }
{
    let Ok(defs) = Defs::new(alloc, script) else {
        return Err(EvalFault::Memory);
    };
    let Ok(uses) = Uses::new(alloc, uses) else {
        return Err(EvalFault::Memory);
    };
    planned(alloc, &defs, &uses)
}

/// Evaluates the statements of a script over its tables of defs and of what names stand for. It answers the plan and
/// the calls that made its nodes; without an output the fault is `NoOutput`.
#[tactic(auto, using(crate::proofs::Statements::first_not_stuck))]
fn planned(alloc: Global, defs: &Defs<'_>, uses: &Uses<'_>) -> Result<Sources, EvalFault>
    requires { IsNotStuck (evaluation (view_script defs.now.script.now) uses.now.all.now) }
    ensures { Answers (λ s. (s.plan, s.calls)) result (sources (view_script defs.now.script.now) uses.now.all.now) }
{
    let mut machine = Machine::new(alloc);
    run(alloc, defs, uses, &defs.script.statements, &mut machine)?;
    if has_output(machine.plan.plan().sinks.as_slice()) {
        Ok(Sources {
            plan: machine.plan.into_plan(),
            calls: machine.calls,
        })
    } else {
        Err(EvalFault::NoOutput)
    }
}

/// Whether one of these sinks is an output.
fn has_output(sinks: &[SinkPlan]) -> bool
    ensures { result ≡ list_any is_output sinks.now }
{
    sinks.iter().any(|sink| sink.is_output())
}

/// Evaluates these statements of a script one after another, and ends its settings; `machine` gathers the plan. The
/// first fault ends it, and where there are 2^32 statements or more, it answers as if memory were refused.
fn run(
    alloc: Global,
    defs: &Defs<'_>,
    uses: &Uses<'_>,
    stmts: &[Stmt],
    machine: &mut Machine,
) -> Result<(), EvalFault>
    requires { IsNotStuck (statements (view_script defs.now.script.now) uses.now.all.now
        (listed (map view_stmt stmts.now)) 0 [] machine.old) }
    ensures { Answers (λ _. machine.new) result
        (statements (view_script defs.now.script.now) uses.now.all.now (listed (map view_stmt stmts.now)) 0 []
        machine.old) }
{
    let mut globals = Globals::new(alloc);
    let mut number: u32 = 0;
    'turns: for stmt in stmts {
        if number == u32::MAX {
            return Err(EvalFault::Memory);
        }
        number += 1;
        turn(alloc, defs, uses, &stmt.part, number, &mut globals, machine)?;
    }
    settle(machine, false)
}

// Evaluates statement `number` of a script, counted from 1; its value, if it binds one, goes to `globals`. If it is no
// `setting`, the settings before it end first. A fault is told with the statement's number.
#[tactic(auto, unfolding(eval_meaning::specs::Scripts::turned), using(crate::proofs::Statements::fault_is_told))]
fn turn(
    alloc: Global,
    defs: &Defs<'_>,
    uses: &Uses<'_>,
    part: &StmtPart,
    number: u32,
    globals: &mut Globals,
    machine: &mut Machine,
) -> Result<(), EvalFault>
    requires { IsNotStuck (turned (view_script defs.now.script.now) uses.now.all.now (view_part part.now) number
        (map view_slot globals.old.all.items) machine.old) }
    ensures { Answers (λ _. (map view_slot globals.new.all.items, machine.new)) result
        (turned (view_script defs.now.script.now) uses.now.all.now (view_part part.now) number
        (map view_slot globals.old.all.items) machine.old) }
{
    settle(machine, is_setting(uses, part))?;
    machine.settings.statement = number;
    match statement(alloc, defs, uses, part, globals, machine) {
        Ok(()) => Ok(()),
        Err(fault) => Err(told(number, fault)),
    }
}

// Turns a fault within statement `stmt` into a fault of the script, which has the statement's number. `Stuck`, a value
// of a wrong type, cannot come: typing has ruled that out.
#[tactic(auto, using(crate::proofs::Statements::is_told))]
fn told(stmt: u32, fault: Stop) -> EvalFault
    requires { fault ≢ Stuck }
    ensures { result ≡ unwrap_or (fault_in stmt fault) told.Memory }
{
    match fault_in(stmt, fault) {
        Some(found) => found,
        None => unreachable!(),
    }
}

// Ends the script's settings, unless they have ended, before a statement that is no `setting` and at the end of the
// script. `setting` says that a `setting` comes next: then nothing is done.
fn settle(machine: &mut Machine, setting: bool) -> Result<(), EvalFault>
    ensures { Answers (λ _. machine.new) result (settings_settled setting machine.old) }
{
    if setting {
        return Ok(());
    }
    if machine.settings.allowed {
        end_settings(machine)
    } else {
        Ok(())
    }
}

/// Ends the settings of a script: its plan gets the length of a tick in samples, by the duration that was set. If that
/// is out of bounds, the fault `BadSetting` names the statement of the last setting.
#[tactic(auto, unfolding(eval_meaning::specs::Scripts::settings_ended))]
fn end_settings(machine: &mut Machine) -> Result<(), EvalFault>
    ensures { Answers (λ _. machine.new) result (settings_ended machine.old) }
{
    let rate = machine.plan.plan().rate;
    match tick(machine.settings.duration, rate) {
        Some(frame) => {
            machine.plan.set_frame(frame);
            machine.settings.allowed = false;
            Ok(())
        }
        None => Err(EvalFault::BadSetting {
            stmt: machine.settings.last,
        }),
    }
}

// How many samples a tick of this duration has at `rate` samples a second; `None` outside of 1 to `MAX_FRAME`.
fn tick(duration: Decimal, rate: u32) -> Option<u32>
    ensures { result ≡ tick_of duration.millionths rate }
{
    match duration.samples(rate) {
        None => None,
        Some(samples) => {
            if samples < 1 {
                return None;
            }
            if samples > u64::from(MAX_FRAME) {
                return None;
            }
            Some(samples as u32)
        }
    }
}

/// Evaluates a statement, which may add a binding to `globals`, or nodes and sinks to the plan in `machine`. A def does
/// nothing here: the table of defs has it. The value of a call or an `if` is dropped.
#[tactic(auto, unfolding(eval_meaning::specs::Scripts::statement))]
fn statement(
    alloc: Global,
    defs: &Defs<'_>,
    uses: &Uses<'_>,
    part: &StmtPart,
    globals: &mut Globals,
    machine: &mut Machine,
) -> Result<(), Stop>
    ensures { Gives (λ _. (map view_slot globals.new.all.items, machine.new)) result
        (statement (top_scope (view_script defs.now.script.now) uses.now.all.now (map view_slot globals.old.all.items))
        (view_part part.now) (map view_slot globals.old.all.items) machine.old) }
{
    match part {
        StmtPart::Bind(bind) => binding(alloc, defs, uses, bind, globals, machine),
        StmtPart::Def(_) => Ok(()),
        StmtPart::Call(inside) => {
            let _value = top_call(alloc, defs, uses, globals, machine, inside)?;
            Ok(())
        }
        StmtPart::If(inside) => {
            let _value = top_choice(alloc, defs, uses, globals, machine, inside)?;
            Ok(())
        }
    }
}

/// Evaluates a binding that is a statement, and adds its value to `globals`, for the statements after it.
#[tactic(auto, unfolding(eval_meaning::specs::Scripts::statement))]
fn binding(
    alloc: Global,
    defs: &Defs<'_>,
    uses: &Uses<'_>,
    bind: &Bind,
    globals: &mut Globals,
    machine: &mut Machine,
) -> Result<(), Stop>
    ensures { Gives (λ _. (map view_slot globals.new.all.items, machine.new)) result
        (statement (top_scope (view_script defs.now.script.now) uses.now.all.now (map view_slot globals.old.all.items))
        (a_binding (view_bind bind.now)) (map view_slot globals.old.all.items) machine.old) }
{
    let value = top_full(alloc, defs, uses, globals, machine, &bind.value)?;
    globals.push(Slot { at: bind.at, value })?;
    Ok(())
}

/// The value of an expression in a statement outside of defs. It sees the bindings of the statements before it, in
/// `globals`, and no parameters. Sources that it makes go to the plan in `machine`.
fn top_full(
    alloc: Global,
    defs: &Defs<'_>,
    uses: &Uses<'_>,
    globals: &Globals,
    machine: &mut Machine,
    node: &Full,
) -> Result<Value, Stop>
    ensures { Gives (λ v. (view_value v, machine.new)) result
        (full (top_scope (view_script defs.now.script.now) uses.now.all.now (map view_slot globals.now.all.items))
        (view_full node.now) machine.old) }
{
    let scope = Scope {
        defs,
        uses,
        globals,
        locals: &[],
        kinds: &[],
        calls: MAX_CALLS as usize,
    };
    full(alloc, &scope, LEVELS, machine, node)
}

/// The value of a call that is a statement. It sees the bindings of the statements before it, in `globals`, and no
/// parameters. Sources and outputs that it makes go to the plan in `machine`.
fn top_call(
    alloc: Global,
    defs: &Defs<'_>,
    uses: &Uses<'_>,
    globals: &Globals,
    machine: &mut Machine,
    node: &Call,
) -> Result<Value, Stop>
    ensures { Gives (λ v. (view_value v, machine.new)) result
        (call (top_scope (view_script defs.now.script.now) uses.now.all.now (map view_slot globals.now.all.items))
        (view_call node.now) machine.old) }
{
    let scope = Scope {
        defs,
        uses,
        globals,
        locals: &[],
        kinds: &[],
        calls: MAX_CALLS as usize,
    };
    call(alloc, &scope, LEVELS, machine, node)
}

/// The value of an `if` that is a statement. It sees the bindings of the statements before it, in `globals`, and no
/// parameters. What it makes goes to the plan in `machine`.
fn top_choice(
    alloc: Global,
    defs: &Defs<'_>,
    uses: &Uses<'_>,
    globals: &Globals,
    machine: &mut Machine,
    node: &If,
) -> Result<Value, Stop>
    ensures { Gives (λ v. (view_value v, machine.new)) result
        (choice (top_scope (view_script defs.now.script.now) uses.now.all.now (map view_slot globals.now.all.items))
        (view_if node.now) machine.old) }
{
    let scope = Scope {
        defs,
        uses,
        globals,
        locals: &[],
        kinds: &[],
        calls: MAX_CALLS as usize,
    };
    choice(alloc, &scope, LEVELS, machine, node)
}
