// The marks that an engine keeps for its outputs: where a track began.
ghost use Rattle.std.specs.Prelude.{◌≡◌, ℕ, Some, None, true, false, [], ◌∷◌, length, take, slice_get, IfOk, OnOk};
ghost use Rattle.std.specs.Prelude.{OnErr};
ghost use Rattle.clock_ticks.specs.declared.cues.CueList.{CueList as Marks};
ghost use Rattle.clock_ticks.specs.declared.fault.TickFault.{TickFault as Fault};
ghost use Rattle.clock_ticks.specs.Cues.{HasGrown, HasKept, HasMarked, marks_if, marks_of};
ghost use Rattle.clock_outputs.specs.declared.port.Port.{Port as OutputPort};
ghost use Rattle.stream_meaning.specs.Instants.{part_at};

use crate::TickFault;
use clock_outputs::Port;
use frame_core::Cell;
use liq_base::Memory;
use nested_instants::ClockStates;
use std::alloc::Global;
use stream_meaning::slot_of;

/// The instant at which a track begins, and its title.
#[derive(Clone, Copy, Debug, PartialEq, Eq, Hash)]
pub struct CueMark {
    pub at: u64,
    pub title: u32,
}

/// The marks of an output.
#[derive(Debug, Drop)]
pub struct CueList {
    pub marks: Vec<CueMark>,

    /// How many there were before this tick.
    pub before: usize,
}

/// The marks of the outputs of a clock, in sink order, and whether they are kept.
#[derive(Debug, Drop)]
pub struct Cues {
    pub keeping: bool,
    pub lists: Vec<CueList>,
}

/// Empty lists for the marks of `count` outputs, which tell where their tracks begin; no marks are kept yet.
pub fn cues_of(alloc: Global, count: usize) -> Result<Cues, Memory>
    ensures keeping { IfOk result (λ cues. cues.keeping ≡ false) }
    ensures size { IfOk result (λ cues. length cues.lists.items ≡ count) }
    ensures none { IfOk result (λ cues. (k : ℕ) (list : Marks) → slice_get cues.lists.items k ≡ Some list
        → list.marks.items ≡ []) }
{
    let mut lists = Vec::with_capacity(alloc, count)?;
    for _ in 0..count {
        lists.push(CueList {
            marks: Vec::new(alloc),
            before: 0,
        })?;
    }
    Ok(Cues {
        keeping: false,
        lists,
    })
}

/// Begins a tick: notes for each output how many marks of track beginnings it has, so that those of a tick that fails
/// can be left out.
pub fn begin_cues(cues: &mut Cues)
    ensures keeping { cues.new.keeping ≡ cues.old.keeping }
    ensures size { length cues.new.lists.items ≡ length cues.old.lists.items }
    ensures marked { (k : ℕ) (old new : Marks) → slice_get cues.old.lists.items k ≡ Some old
        → slice_get cues.new.lists.items k ≡ Some new → HasMarked [] old new }
{
    for k in 0..cues.lists.len() {
        begin_list(&mut cues.lists[k]);
    }
}

// Begins a tick of one output: notes how many marks of track beginnings it has.
fn begin_list(list: &mut CueList)
    ensures { HasMarked [] list.old list.new }
{
    list.before = list.marks.len();
}

/// If marks are kept, adds to the list of each output, of `ports`, the track that begins in its node at the latest
/// instant of `clocks`, if one does. Instant `at` is its mark. If memory is refused, some outputs got theirs.
pub fn mark_all(
    cues: &mut Cues,
    ports: &[Port],
    at: u64,
    clocks: &ClockStates,
) -> Result<(), Memory>
    requires sizes { length cues.old.lists.items ≡ length ports.now }
    ensures keeping { cues.new.keeping ≡ cues.old.keeping }
    ensures size { length cues.new.lists.items ≡ length cues.old.lists.items }
    ensures grown { (k : ℕ) (old new : Marks) → slice_get cues.old.lists.items k ≡ Some old
        → slice_get cues.new.lists.items k ≡ Some new → HasGrown old new }
    ensures kept { OnOk result ((k : ℕ) (port : OutputPort) (old new : Marks) → slice_get ports.now k ≡ Some port
        → slice_get cues.old.lists.items k ≡ Some old
        → slice_get cues.new.lists.items k ≡ Some new
        → HasKept (marks_if cues.old.keeping at ((part_at clocks.now.latest.parts.items port.node).slot
        ∷ [])) old new) }
    ensures memory { OnErr result (cues.old.keeping ≡ true) }
{
    if !cues.keeping {
        return Ok(());
    }
    mark_lists(&mut cues.lists, ports, at, clocks)
}

// Adds to the list of each output, of `ports`, the track that begins in its node at the latest instant of `clocks`, if
// one does. Instant `at` is its mark. If memory is refused, some outputs got theirs.
fn mark_lists(
    lists: &mut Vec<CueList>,
    ports: &[Port],
    at: u64,
    clocks: &ClockStates,
) -> Result<(), Memory>
    requires sizes { length lists.old.items ≡ length ports.now }
    ensures size { length lists.new.items ≡ length lists.old.items }
    ensures grown { (k : ℕ) (old new : Marks) → slice_get lists.old.items k ≡ Some old
        → slice_get lists.new.items k ≡ Some new → HasGrown old new }
    ensures kept { OnOk result ((k : ℕ) (port : OutputPort) (old new : Marks) → slice_get ports.now k ≡ Some port
        → slice_get lists.old.items k ≡ Some old
        → slice_get lists.new.items k ≡ Some new
        → HasKept (marks_of at ((part_at clocks.now.latest.parts.items port.node).slot ∷ [])) old new) }
{
    for k in 0..ports.len() {
        mark_list(
            &mut lists[k],
            at,
            slot_of(&clocks.latest.parts, ports[k].node),
        )?;
    }
    Ok(())
}

// Adds a mark to the list of an output if `slot`, what its node offers at instant `at`, is a cell that begins a track.
// The mark is that instant and the track's title.
fn mark_list(list: &mut CueList, at: u64, slot: Option<Cell>) -> Result<(), Memory>
    ensures kept { OnOk result (HasKept (marks_of at (slot ∷ [])) list.old list.new) }
    ensures refused { OnErr result (HasKept [] list.old list.new) }
{
    let Some(cell) = slot else {
        return Ok(());
    };
    if !cell.first {
        return Ok(());
    }
    list.marks.push(CueMark {
        at,
        title: cell.title,
    })?;
    Ok(())
}

/// The marks of an output's track beginnings in whole ticks: all, or if a fault stopped the engine, those before the
/// tick in which it did.
pub fn whole_marks(list: &CueList, stopped: Option<TickFault>) -> &[CueMark]
    ensures runs { stopped ≡ None → result.now ≡ list.now.marks.items }
    ensures stopped { (fault : Fault) → stopped ≡ Some fault → result.now ≡ take list.now.before list.now.marks.items }
{
    match stopped {
        None => list.marks.as_slice(),
        Some(_) => first_marks(list.marks.as_slice(), list.before),
    }
}

// The first `count` marks of an output's track beginnings, or all if there are fewer.
fn first_marks(marks: &[CueMark], count: usize) -> &[CueMark]
    ensures { result.now ≡ take count marks.now }
{
    if marks.len() <= count {
        return marks;
    }
    &marks[..count]
}
