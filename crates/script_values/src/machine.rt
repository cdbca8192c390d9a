// What evaluation changes: the plan, the work, the settings, and the calls of its sources.
ghost use Rattle.std.specs.Prelude.{◌≡◌, OnOk, length};
ghost use Rattle.script_values.specs.Gives.{Gives};
ghost use Rattle.script_values.specs.Machines.{count_work, filled, first_machine, noted_by};
ghost use Rattle.script_values.specs.Values.{size};
ghost use Rattle.script_values.specs.View.{view_value};

use crate::value::size;
use crate::{Stop, Value};
use fixed_text::Decimal;
use liq_base::Memory;
use liq_base::limits::MAX_WORK;
use plan_core::{Draft, Items};
use std::alloc::Global;

/// The state of evaluation: the plan with the nodes of the statements before, the work that was done, the settings, and
/// the calls of the sources.
#[derive(Drop)]
pub struct Machine {
    pub plan: Draft,

    /// How many steps of evaluation were counted, at most 999999.
    pub work: u64,
    pub settings: Settings,

    /// For each source, the token of the call that made it: of calls that run within each other, the outermost.
    pub calls: Items<u32>,
}

/// The settings of a script, but for the rate, which stands in the plan.
#[derive(Clone, Copy, Debug, PartialEq, Eq)]
pub struct Settings {
    /// How long a tick is, in seconds.
    pub duration: Decimal,

    /// The statement that set the rate or the tick last, counted from 1; 0 where none did.
    pub last: u32,

    /// The statement that is evaluated, counted from 1.
    pub statement: u32,

    /// Whether a setting may stand here: this statement and all before it are calls of `set` that hold no other call.
    pub allowed: bool,
}

impl Machine {
    /// The state of evaluation before the first statement: an empty plan of 44100 samples a second and ticks of 0.04
    /// seconds. It takes no memory.
    pub fn new(alloc: Global) -> Machine
        ensures first { result ≡ first_machine }
    {
        let duration = Decimal { millionths: 40_000 };
        Machine {
            plan: Draft::new(alloc, 44_100, 1764),
            work: 0,
            settings: Settings {
                duration,
                last: 0,
                statement: 0,
                allowed: true,
            },
            calls: Items::new(alloc),
        }
    }
}

/// Counts `steps` more steps of evaluation as work of the script. Where the work would pass 999999, it is a fault, and
/// the count stays.
pub fn count(machine: &mut Machine, steps: u64) -> Result<(), Stop>
    ensures { Gives (λ _. machine.new) result (count_work steps machine.old) }
{
    let work = machine.work.saturating_add(steps);
    if work > u64::from(MAX_WORK) {
        return Err(Stop::TooMuchWork);
    }
    machine.work = work;
    Ok(())
}

/// Counts the size of a value as work of the script, as a name for the value costs it.
pub fn count_value(machine: &mut Machine, value: &Value) -> Result<(), Stop>
    ensures { Gives (λ _. machine.new) result (count_work (size (view_value value.now)) machine.old) }
{
    count(machine, size(value))
}

/// How many sources the script has made so far: as many as its plan has nodes.
pub fn sources_made(plan: &Draft) -> usize
    ensures { result ≡ length plan.now.nodes }
{
    plan.plan().nodes.len()
}

/// Notes which call made which sources: those from number `before` on, by the call at token `at`. An earlier note on
/// one of them is replaced. Where memory is refused, some of them may be noted.
pub fn note(machine: &mut Machine, at: u32, before: usize) -> Result<(), Memory>
    ensures { OnOk result (machine.new ≡ noted_by at before machine.old) }
{
    let sources = sources_made(&machine.plan);
    machine.calls.truncate(before);
    fill(&mut machine.calls, at, sources)
}

// Notes the call at token `at` as the maker of each further source, until there is one call for each of `sources`
// sources. `calls` has the token of such a call for each source, by its number.
fn fill(calls: &mut Items<u32>, at: u32, sources: usize) -> Result<(), Memory>
    ensures { OnOk result (calls.new ≡ filled at sources calls.old) }
{
    'turns: while calls.len() < sources {
        calls.push(at)?;
    }
    Ok(())
}
