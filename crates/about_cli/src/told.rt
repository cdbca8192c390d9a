// What is told of the bytes of a script.
ghost use Rattle.std.specs.Prelude.{◌≡◌, ◌≢◌, IfErr, IfOk, length, map};
ghost use Rattle.about_cli.specs.Told.{HasNoPlan, IsDrawn, IsRefused, IsWeekOf, OfPlan, OfSources, Tells};
ghost use Rattle.about_cli.specs.declared.told.Untold.TheVariants as untold;
ghost use Rattle.fallible_infer.specs.Infallible.{mark_at};
ghost use Rattle.liq_base.specs.Shelves.{OnlyRead};
ghost use Rattle.plan_core.specs.Plans.{IsWellFormed};
ghost use Rattle.script_places.specs.Starts.{start};
ghost use Rattle.script_plan.specs.Plans.{IsPlan};
ghost use Rattle.script_plan.specs.Sources.{HasSources};
ghost use Rattle.station_facts.specs.Hours.{AreHours};

use crate::verb::Question;
use fallible_infer::check_outputs;
use liq_base::limits::{MAX_ALL_BYTES, MAX_FILE_BYTES};
use liq_base::{Memory, Shelf};
use plan_core::Plan;
use plan_picture::picture;
use script_eval::Sources;
use script_lex::{Token, lex};
use script_places::start;
use script_plan::{ScriptFault, plan_of, sources_of};
use station_facts::{infer, tell_files, tell_hours, tell_tokens};
use std::alloc::Global;
use track_library::Sizes;
use week_lines::week;

/// Why nothing is told of a script.
#[derive(Clone, Copy, Debug, PartialEq, Eq)]
pub enum Untold {
    /// It has no plan.
    NoPlan,

    /// Memory was refused.
    Memory,
}

impl From<Memory> for Untold {
    ghost use Rattle.about_cli.specs.declared.told.Untold.TheVariants as untold;

    ghost from_gives = { λ _ e. e ≡ untold.Memory };

    // Refused memory as the reason why nothing is told, so that `?` hands it on.
    fn from(_refused: Memory) -> Untold {
        Untold::Memory
    }
}

/// The text that answers a question about the script with these bytes. `shelf` has the audio files and lists that the
/// script plays; only `Question::Files` reads them. `Err` says why nothing is told.
pub fn told_of<S: Shelf>(
    alloc: Global,
    question: Question,
    text: &[u8],
    shelf: &mut S,
) -> Result<Vec<u8>, Untold>
    ensures told { IfOk result
        (λ told. Tells question text.now (S.told shelf.old) (S.told shelf.new) told.items) }
    ensures no_plan { IfErr result (λ why. why ≡ untold.NoPlan → (question ≢ Question.Tokens) × HasNoPlan text.now) }
    ensures shelf { OnlyRead (S.told shelf.old) (S.told shelf.new) }
    ensures untouched { question ≢ Question.Files → shelf.new ≡ shelf.old }
{
    match question {
        Question::Tokens => Ok(tell_tokens(alloc, text)?),
        Question::Week => week_of(alloc, text),
        Question::Picture => picture_of(alloc, text),
        Question::Files => files_of(alloc, text, shelf),
        Question::Hours => hours_of(alloc, text),
    }
}

// The plan of the script with these bytes. `Err` says that it has none, whatever its fault is, or that memory was
// refused.
fn plan_in(alloc: Global, text: &[u8]) -> Result<Plan, Untold>
    ensures plan { IfOk result (IsPlan text.now) }
    ensures well_formed { IfOk result IsWellFormed }
    ensures no_plan { IfErr result (λ why. why ≡ untold.NoPlan → HasNoPlan text.now) }
{
    match plan_of(alloc, text) {
        Ok(plan) => Ok(plan),
        Err(ScriptFault::Memory) => Err(Untold::Memory),
        Err(_) => Err(Untold::NoPlan),
    }
}

// The lines of a script's week: those about its switches, and how long it is silent in all. `Err` says that the script
// has no plan, or that memory was refused.
fn week_of(alloc: Global, text: &[u8]) -> Result<Vec<u8>, Untold>
    ensures told { IfOk result (λ told. OfPlan text.now (λ plan. IsWeekOf plan told.items)) }
    ensures no_plan { IfErr result (λ why. why ≡ untold.NoPlan → HasNoPlan text.now) }
{
    let plan = plan_in(alloc, text)?;
    Ok(listed(alloc, &plan)?)
}

// The lines of a plan's week: those about its switches, and how long it is silent in all. Which sources always offer
// something is inferred first.
fn listed(alloc: Global, plan: &Plan) -> Result<Vec<u8>, Memory>
    requires { IsWellFormed plan.now }
    ensures { IfOk result (λ told. IsWeekOf plan.now told.items) }
{
    let inferred = infer(alloc, plan)?;
    week(alloc, plan, &inferred.marks)
}

// The picture of the plan of a script, as text for graphviz. `Err` says that the script has no plan, or that memory was
// refused.
fn picture_of(alloc: Global, text: &[u8]) -> Result<Vec<u8>, Untold>
    ensures told { IfOk result (λ told. OfPlan text.now (λ plan. IsDrawn plan told.items)) }
    ensures no_plan { IfErr result (λ why. why ≡ untold.NoPlan → HasNoPlan text.now) }
{
    let plan = plan_in(alloc, text)?;
    Ok(drawn(alloc, &plan)?)
}

// The picture of a plan, as text for graphviz. What it shows in red is found first: the output that may fall silent and
// must not, and the fault of its clocks.
fn drawn(alloc: Global, plan: &Plan) -> Result<Vec<u8>, Memory>
    requires { IsWellFormed plan.now }
    ensures { IfOk result (λ told. IsDrawn plan.now told.items) }
{
    let inferred = infer(alloc, plan)?;
    let refused = refused_output(plan, &inferred.marks);
    picture(alloc, plan, &inferred.marks, refused, &inferred.clocks)
}

// The number of the first output that may fall silent though the script does not let it; `None` where there is none.
// `marks` says which sources always offer something.
fn refused_output(plan: &Plan, marks: &[bool]) -> Option<u32>
    requires { IsWellFormed plan.now }
    ensures { IsRefused plan.now (mark_at marks.now) result }
{
    match check_outputs(plan, marks) {
        Ok(()) => None,
        Err(fault) => Some(fault.sink),
    }
}

// Tells what a script plays, as JSON: its plan, and what becomes of each audio file or list. Each source is told with
// the place of its call in the text. The files are read from the shelf, under the limits of `liq`.
fn files_of<S: Shelf>(alloc: Global, text: &[u8], shelf: &mut S) -> Result<Vec<u8>, Untold>
    ensures told { IfOk result
        (λ told. Tells Question.Files text.now (S.told shelf.old) (S.told shelf.new) told.items) }
    ensures no_plan { IfErr result (λ why. why ≡ untold.NoPlan → HasNoPlan text.now) }
    ensures shelf { OnlyRead (S.told shelf.old) (S.told shelf.new) }
{
    let sources = sources_in(alloc, text)?;
    let Ok(tokens) = lex(alloc, text) else {
        // a text with a plan has tokens
        return Err(Untold::Memory);
    };
    let ats = starts(alloc, text.len(), &tokens, sources.calls.as_slice())?;
    let sizes = Sizes {
        file: MAX_FILE_BYTES,
        all: MAX_ALL_BYTES,
    };
    Ok(tell_files(alloc, &sources.plan, &ats, shelf, sizes)?)
}

// Tells the hours of a script's switches, as JSON: when in the week each case is the first that holds. Each source is
// told with the place of its call in the text. `Err` says that the script has no plan, or that memory was refused.
fn hours_of(alloc: Global, text: &[u8]) -> Result<Vec<u8>, Untold>
    ensures told { IfOk result (λ told. OfSources text.now (λ plan ats. AreHours plan ats told.items)) }
    ensures no_plan { IfErr result (λ why. why ≡ untold.NoPlan → HasNoPlan text.now) }
{
    let sources = sources_in(alloc, text)?;
    let Ok(tokens) = lex(alloc, text) else {
        // a text with a plan has tokens
        return Err(Untold::Memory);
    };
    let ats = starts(alloc, text.len(), &tokens, sources.calls.as_slice())?;
    Ok(tell_hours(alloc, &sources.plan, &ats)?)
}

// The plan of the script with these bytes, and for each source the number of the token at which the call begins that
// makes it. `Err` says that it has no plan, or that memory was refused.
fn sources_in(alloc: Global, text: &[u8]) -> Result<Sources, Untold>
    ensures sources { IfOk result (λ s. HasSources text.now s.plan s.calls) }
    ensures well_formed { IfOk result (λ s. IsWellFormed s.plan) }
    ensures each { IfOk result (λ s. length s.calls ≡ length s.plan.nodes) }
    ensures no_plan { IfErr result (λ why. why ≡ untold.NoPlan → HasNoPlan text.now) }
{
    match sources_of(alloc, text) {
        Ok(sources) => Ok(sources),
        Err(ScriptFault::Memory) => Err(Untold::Memory),
        Err(_) => Err(Untold::NoPlan),
    }
}

// For each of these token numbers the index of the byte at which the token begins, in a text of `total` bytes. `tokens`
// are all tokens of the text.
fn starts(
    alloc: Global,
    total: usize,
    tokens: &[Token],
    numbers: &[u32],
) -> Result<Vec<usize>, Memory>
    ensures { IfOk result (λ ats. ats.items ≡ map (start total tokens.now) numbers.now) }
{
    let mut ats = Vec::new(alloc);
    for number in numbers {
        ats.push(start(total, tokens, u64::from(*number)))?;
    }
    Ok(ats)
}
