// The builtins over one source: `amplify`, `mean`, `stereo`, `crossfade`, `mksafe`, `buffer` and `clock`.
ghost use Rattle.std.specs.Prelude.{◌≡◌, ◌<◌, length, map};
ghost use Rattle.script_values.specs.Gives.{Gives};
ghost use Rattle.script_values.specs.View.{view_value};
ghost use Rattle.script_values.specs.Views.{view_given};
ghost use Rattle.builtin_calls.specs.Builtins.{amplify, buffer, buffer_plan, clock, crossfade, mean, mksafe, safe};
ghost use Rattle.builtin_calls.specs.Builtins.{short_overlap, stereo};

use crate::nodes::{add, add_buffer, at_most, one_child, push, room_over, two_children};
use crate::parts::{decimal_or, one_kind, plain_decimal, text_or};
use crate::sources::plain_source;
use crate::times::{chunks, five_seconds, one_second, overlap_of, samples_of, ten_seconds};
use fixed_text::Decimal;
use liq_base::limits::{MAX_CAPACITY, MAX_OVERLAP, MAX_PREFILL};
use liq_base::{Kind, Text};
use plan_core::{BufferPlan, Draft, Items, Node, Op};
use script_values::{Given, Limit, Machine, Stop, Value};
use std::alloc::Global;

/// `amplify(k, s)`: adds a node that multiplies each sample of the source by this factor. `given` has the call's
/// arguments, `kinds` the kind of the node (mono or stereo); the value is the node as a source.
#[tactic(auto, unfolding(crate::specs::Builtins::amplify))]
pub(crate) fn amplify(
    alloc: Global,
    kinds: &[Kind],
    given: &mut Vec<Given>,
    machine: &mut Machine,
) -> Result<Value, Stop>
    ensures { Gives (λ v. (view_value v, machine.new)) result
        (amplify kinds.now (map view_given given.old.items) machine.old) }
{
    let factor = plain_decimal(given)?;
    let kind = one_kind(kinds)?;
    let source = plain_source(&machine.plan, kind, given)?;
    let children = one_child(alloc, source)?;
    add(machine, Op::Amplify { factor }, kind, children)
}

/// `mean(s)`: adds a mono node that averages both sides of a stereo source. `given` has the call's arguments, and the
/// value is the new node as a source.
#[tactic(auto, unfolding(crate::specs::Builtins::mean))]
pub(crate) fn mean(
    alloc: Global,
    given: &mut Vec<Given>,
    machine: &mut Machine,
) -> Result<Value, Stop>
    ensures { Gives (λ v. (view_value v, machine.new)) result (mean (map view_given given.old.items) machine.old) }
{
    let source = plain_source(&machine.plan, Kind::Stereo, given)?;
    let children = one_child(alloc, source)?;
    add(machine, Op::Mean, Kind::Mono, children)
}

/// `stereo(s)`: adds a stereo node that plays a mono source on both sides. `given` has the call's arguments, and the
/// value is the new node as a source.
#[tactic(auto, unfolding(crate::specs::Builtins::stereo))]
pub(crate) fn stereo(
    alloc: Global,
    given: &mut Vec<Given>,
    machine: &mut Machine,
) -> Result<Value, Stop>
    ensures { Gives (λ v. (view_value v, machine.new)) result (stereo (map view_given given.old.items) machine.old) }
{
    let source = plain_source(&machine.plan, Kind::Mono, given)?;
    let children = one_child(alloc, source)?;
    add(machine, Op::Stereo, Kind::Stereo, children)
}

/// `crossfade(duration=5., s)`, whose name stands at token `at`: adds a node that mixes each track into the one before.
/// `given` has the call's arguments, `kinds` the kind of the node (mono or stereo); the value is the node as a source.
#[tactic(auto, unfolding(crate::specs::Builtins::crossfade))]
pub(crate) fn crossfade(
    alloc: Global,
    at: u32,
    kinds: &[Kind],
    given: &mut Vec<Given>,
    machine: &mut Machine,
) -> Result<Value, Stop>
    ensures { Gives (λ v. (view_value v, machine.new)) result
        (crossfade at kinds.now (map view_given given.old.items) machine.old) }
{
    let duration = decimal_or(given, "duration", five_seconds())?;
    let kind = one_kind(kinds)?;
    let source = plain_source(&machine.plan, kind, given)?;
    let overlap = short_overlap(at, &machine.plan, source, duration)?;
    let children = one_child(alloc, source)?;
    add(machine, Op::Crossfade { overlap }, kind, children)
}

/// `mksafe(s)`: adds a source that plays `s` while it is ready, and silence while it is not. `given` has the call's
/// arguments, `kinds` the kind of the node (mono or stereo); the value is the node as a source.
#[tactic(auto, unfolding(crate::specs::Builtins::mksafe))]
pub(crate) fn mksafe(
    alloc: Global,
    kinds: &[Kind],
    given: &mut Vec<Given>,
    machine: &mut Machine,
) -> Result<Value, Stop>
    ensures { Gives (λ v. (view_value v, machine.new)) result
        (mksafe kinds.now (map view_given given.old.items) machine.old) }
{
    let kind = one_kind(kinds)?;
    let source = plain_source(&machine.plan, kind, given)?;
    safe(alloc, machine, kind, source)
}

/// `buffer(buffer=1., max=10., s)`, whose name stands at token `at`: adds a buffer, a sink that feeds it from `s`, and
/// a node that reads it, which is the value. `given` has the call's arguments, `kinds` the kind of the source (mono or
/// stereo).
#[tactic(auto, unfolding(crate::specs::Builtins::buffer))]
pub(crate) fn buffer(
    alloc: Global,
    at: u32,
    kinds: &[Kind],
    given: &mut Vec<Given>,
    machine: &mut Machine,
) -> Result<Value, Stop>
    ensures { Gives (λ v. (view_value v, machine.new)) result
        (buffer at kinds.now (map view_given given.old.items) machine.old) }
{
    let held = decimal_or(given, "buffer", one_second())?;
    let most = decimal_or(given, "max", ten_seconds())?;
    let kind = one_kind(kinds)?;
    let source = plain_source(&machine.plan, kind, given)?;
    let plan = buffer_plan(at, &machine.plan, held, most)?;
    add_buffer(alloc, machine, source, kind, plan)
}

/// `clock(id="", s)`: adds a node that passes the source on and sets it in the clock of this id. `given` has the call's
/// arguments, `kinds` the kind of the node (mono or stereo); the value is the node as a source.
#[tactic(auto, unfolding(crate::specs::Builtins::clock))]
pub(crate) fn clock(
    alloc: Global,
    kinds: &[Kind],
    given: &mut Vec<Given>,
    machine: &mut Machine,
) -> Result<Value, Stop>
    ensures { Gives (λ v. (view_value v, machine.new)) result
        (clock kinds.now (map view_given given.old.items) machine.old) }
{
    let unnamed = Text::from_str(alloc, "")?;
    let id = text_or(alloc, given, "id", unnamed)?;
    let kind = one_kind(kinds)?;
    let source = plain_source(&machine.plan, kind, given)?;
    let children = one_child(alloc, source)?;
    add(machine, Op::Clock(id), kind, children)
}

// The overlap of a crossfade of this source, from seconds to samples. It is a fault where it is too long, or where a
// path down from the crossfade has more than 4 crossfades. `at` is the token of the call's name, which a bad value
// names.
#[tactic(auto, unfolding(crate::specs::Builtins::short_overlap))]
fn short_overlap(at: u32, plan: &Draft, source: u32, duration: Decimal) -> Result<u32, Stop>
    ensures { Gives (λ n. n) result (short_overlap at source duration plan.now) }
{
    let samples = overlap_of(at, plan.plan().rate, duration)?;
    room_over(plan, source)?;
    let overlap = at_most(MAX_OVERLAP, Limit::Overlap, samples)?;
    Ok(overlap)
}

/// Makes a source infallible: adds an endless blank (its tracks have length 0), and a fallback that plays node `source`
/// while it is ready and else the blank. The fallback changes within a track too. The value is the fallback.
#[tactic(auto, unfolding(crate::specs::Builtins::safe))]
fn safe(alloc: Global, machine: &mut Machine, kind: Kind, source: u32) -> Result<Value, Stop>
    requires { source < length machine.old.plan.nodes }
    ensures { Gives (λ v. (view_value v, machine.new)) result (safe kind source machine.old) }
{
    let blank = Node {
        op: Op::Blank { track: 0 },
        kind,
        children: Items::new(alloc),
    };
    let silence = push(machine, blank)?;
    let children = two_children(alloc, source, silence)?;
    add(machine, Op::Fallback { sensitive: false }, kind, children)
}

// The sizes of a buffer, from two times in seconds: the samples that its reader collects before it plays (`held`), and
// how many chunks it holds at most (`most`). Times below zero or beyond the limits are faults. `at` is the token of the
// call's name, which a bad value names.
#[tactic(auto, unfolding(crate::specs::Builtins::buffer_plan))]
fn buffer_plan(at: u32, plan: &Draft, held: Decimal, most: Decimal) -> Result<BufferPlan, Stop>
    ensures { Gives (λ b. b) result (buffer_plan at held most plan.now) }
{
    let rate = plan.plan().rate;
    let samples = samples_of(at, rate, held)?;
    let room = samples_of(at, rate, most)?;
    let pre = at_most(MAX_PREFILL, Limit::Prefill, samples)?;
    let whole = chunks(room, plan.plan().frame);
    let capacity = at_most(MAX_CAPACITY, Limit::Capacity, whole)?;
    Ok(BufferPlan {
        pre: u64::from(pre),
        capacity,
    })
}
