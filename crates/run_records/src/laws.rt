// Laws of settings that differ in their answers alone, and of records. Each is a contract of a function that does
// nothing.
ghost use Rattle.std.specs.Prelude.{◌≡◌, ℕ, Bool, List, length, slice_get, take, ◌*◌, ◌+◌, ◌<◌, ◌≤◌, [], All, false};
ghost use Rattle.std.specs.Prelude.{max, suc, is_none};
ghost use Rattle.clock_infer.specs.declared.clock_map.ClockMap.{ClockMap as Map};
ghost use Rattle.frame_core.specs.Calls.{Answer};
ghost use Rattle.stream_meaning.specs.Instants.{Setting, answered, prefill};
ghost use Rattle.stream_meaning.specs.Settings.{IsSetting};
ghost use Rattle.run_records.specs.Parting.{AreSameCalls, Goes};
ghost use Rattle.run_records.specs.Outputs.{HasSameOutputs, first_calls};
ghost use Rattle.std.specs.List.{count_by, flat_map};
ghost use Rattle.frame_core.specs.declared.cell.Cell.{Cell as Sample};
ghost use Rattle.frame_core.specs.Legal.{IsHistory};
ghost use Rattle.plan_core.specs.declared.node.Node.{Node as PlanNode};
ghost use Rattle.plan_core.specs.Plans.{ReadsBuffer};
ghost use Rattle.stream_meaning.specs.Calls.{calls_of_tick};
ghost use Rattle.run_records.specs.Buffers.{feeder};
ghost use Rattle.run_records.specs.Heard.{HasRoom, IsHeard};
ghost use Rattle.run_records.specs.Ordered.{HasSameText, IsOrdered};
ghost use Rattle.run_records.specs.OneThread.{rounds_record};
ghost use Rattle.run_records.specs.Owning.{IsOwn};
ghost use Rattle.run_records.specs.Pace.{IsDrawn, KeepPace, has_none};
ghost use Rattle.run_records.specs.Records.{AreRoundsBegun, AreWindows, AreWindowsBegun, IsRounds, Run, Window};
ghost use Rattle.run_records.specs.Records.{capacity_of, puts_of, setting_in};
ghost use Rattle.run_records.specs.Rounds.{BeginsRounds, HasNoJoin, IsAsOnOneThread, merged};

/// The calls on buffers of a clock's first ticks are the same, up to a call that two runs have answered differently.
/// They part there, or they never do; then the clock's outputs have the same bytes and gaps in both runs.
pub fn calls_part_at_answers()
    ensures { (setting : Setting) (clocks : Map) → IsSetting setting clocks
        → (one other : ℕ → List Answer) (accepted kept : ℕ → ℕ → Bool) (m ticks : ℕ)
        → Goes (length setting.plan.buffers) (first_calls (answered setting one) accepted m ticks)
        (first_calls (answered setting other) kept m ticks)
        (HasSameOutputs (answered setting one) (answered setting other) m ticks) }
{}

/// Where the first n calls of a clock on buffers are the same in two runs, the next one is too, but for its answer.
/// Or the clock makes no further call in either.
pub fn next_calls_are_alike()
    ensures { (setting : Setting) (clocks : Map) → IsSetting setting clocks
        → (one other : ℕ → List Answer) (accepted kept : ℕ → ℕ → Bool) (m ticks n : ℕ)
        → take n (first_calls (answered setting one) accepted m ticks)
        ≡ take n (first_calls (answered setting other) kept m ticks)
        → AreSameCalls (slice_get (first_calls (answered setting one) accepted m ticks) n)
        (slice_get (first_calls (answered setting other) kept m ticks) n) }
{}

/// Where two runs of a clock make the same calls on buffers in their first ticks, with the same answers, its outputs
/// have the same bytes and the same gaps.
pub fn same_calls_make_same_outputs()
    ensures { (setting : Setting) (clocks : Map) → IsSetting setting clocks
        → (one other : ℕ → List Answer) (accepted kept : ℕ → ℕ → Bool) (m ticks : ℕ)
        → first_calls (answered setting one) accepted m ticks ≡ first_calls (answered setting other) kept m ticks
        → HasSameOutputs (answered setting one) (answered setting other) m ticks }
{}

/// A tick of a clock takes only of buffers that this clock reads, and gives only to those that it feeds.
pub fn ticks_call_their_own()
    ensures { (setting : Setting) (clocks : Map) → IsSetting setting clocks
        → (answers : ℕ → List Answer) (accepted : ℕ → Bool) (m t : ℕ)
        → All (IsOwn setting m) (calls_of_tick (answered setting answers) accepted m t) }
{}

/// The clock that feeds a buffer runs. The one that reads it may not.
pub fn feeders_run()
    ensures { (setting : Setting) (clocks : Map) → IsSetting setting clocks → (buffer : ℕ)
        → buffer < length setting.plan.buffers
        → feeder setting buffer < clocks.running }
{}

/// Rounds on one thread have one record at most: two runs that are rounds of the same ticks are the same.
/// In a round each clock makes one tick, in the order of the clocks.
pub fn rounds_are_one()
    ensures { (setting : Setting) (clocks : Map) → IsSetting setting clocks → (running N : ℕ) (run other : Run)
        → IsRounds setting running N run → IsRounds setting running N other → run ≡ other }
{}

/// Rounds on one thread, in which each clock in turn makes one tick, have a record.
/// It follows from the setting, tick by tick: each take gets what its buffer then holds.
pub fn rounds_have_a_record()
    ensures { (setting : Setting) (clocks : Map) → IsSetting setting clocks → (running N : ℕ)
        → IsRounds setting running N (rounds_record setting running N) }
{}

/// Where no buffer joins two running clocks, that is, is fed in one and read in the other, a lawful record is that of
/// rounds on one thread, whatever the length of its windows. Then the windows of a buffer are merged into one.
pub fn lawful_records_are_rounds()
    ensures { (setting : Setting) (clocks : Map) → IsSetting setting clocks → (W N : ℕ) (run : Run)
        → HasNoJoin setting clocks.running
        → AreWindows setting clocks.running W N run → IsRounds setting clocks.running N (merged run) }
{}

/// Rounds on one thread are one window: their record is also that of clocks in windows of as many ticks as they make,
/// at least one.
pub fn rounds_are_lawful()
    ensures { (setting : Setting) (clocks : Map) → IsSetting setting clocks → (N : ℕ) (run : Run) → 0 < N
        → IsRounds setting clocks.running N run → AreWindows setting clocks.running N N run }
{}

/// Where no buffer joins two running clocks, a run by threads is as rounds on one thread are.
/// Its buffers answer the same, its outputs have the same bytes and gaps, and tracks begin at the same places.
pub fn as_on_one_thread()
    ensures { (setting : Setting) (clocks : Map) → IsSetting setting clocks → (W N : ℕ) (run other : Run)
        → HasNoJoin setting clocks.running
        → AreWindows setting clocks.running W N run → IsRounds setting clocks.running N other
        → IsAsOnOneThread setting run other }
{}

/// A text, the answers without what the chunks hold, tells a whole record.
/// Two lawful records with the same text are the same, if the ticks of one can be ordered: so that each chunk is put in
/// an earlier tick than the one that gets it.
pub fn text_is_whole()
    ensures { (setting : Setting) (clocks : Map) → IsSetting setting clocks → (W N : ℕ) (run other : Run)
        → (one : AreWindows setting clocks.running W N run) → AreWindows setting clocks.running W N other
        → HasSameText setting run other
        → IsOrdered (setting_in setting run) clocks.running one.accepted N → run ≡ other }
{}

/// Where no buffer joins two running clocks, a run by threads that was broken off begins what rounds on one thread do.
/// With some further answers after those that it got, its takes get what those of the rounds get.
pub fn broken_windows_begin_rounds()
    ensures { (setting : Setting) (clocks : Map) → IsSetting setting clocks → (W N : ℕ) (run rounds : Run)
        → HasNoJoin setting clocks.running
        → AreWindowsBegun setting clocks.running W N run → IsRounds setting clocks.running N rounds
        → BeginsRounds setting run rounds }
{}

/// Rounds on one thread that were broken off begin the whole rounds, also where a buffer joins two clocks.
/// With some further answers after those that it got, such a run's takes get what those of the rounds get.
pub fn broken_rounds_begin_rounds()
    ensures { (setting : Setting) (clocks : Map) → IsSetting setting clocks → (running N : ℕ) (run rounds : Run)
        → AreRoundsBegun setting running N run → IsRounds setting running N rounds → BeginsRounds setting run rounds }
{}

/// No put is refused, whatever the order within a window, if each window has at most W puts and the takes keep pace.
/// In a window in which no take met an empty buffer, they may fall behind the puts by no more than what is owed.
/// The buffer must have room for two windows and for D chunks, the most that is ever owed.
pub fn paced_windows_refuse_nothing()
    ensures { (capacity W D : ℕ) (windows : List Window) (rest : List (List Sample)) → W + W + D ≤ capacity
        → KeepPace W D D windows
        → IsHistory capacity [] windows rest → has_none (flat_map (λ (window : Window). window.0) windows) ≡ false }
{}

/// A lawful record refuses no put to a buffer that has room for two windows of W ticks and for D chunks more.
/// Its prefill must be at most D + 1 frames; a frame is the samples of a tick.
/// Its reader must lie in a main clock that runs, and must be demanded at each instant at which it offers a cell.
pub fn roomy_buffers_refuse_nothing()
    ensures { (setting : Setting) (clocks : Map) → IsSetting setting clocks
        → (W N D buffer m i : ℕ) (node : PlanNode) (run : Run)
        → AreWindows setting clocks.running W N run → buffer < length setting.plan.buffers
        → IsDrawn (setting_in setting run) buffer m i node
        → m < clocks.running → max 1 (prefill setting buffer) ≤ suc D * setting.plan.frame
        → W + W + D ≤ capacity_of setting buffer
        → has_none (puts_of run buffer) ≡ false }
{}

/// A lawful record refuses no put to a buffer whose reader is always heard, and which has room for two windows and its
/// prefill. A reader is always heard if an output or a feed plays it, or nodes above it that always use it.
/// So a report tells of no put that found the buffer full.
pub fn heard_buffers_refuse_nothing()
    ensures { (setting : Setting) (clocks : Map) → IsSetting setting clocks
        → (W N buffer m : ℕ) (above : List ℕ) (i : ℕ) (run : Run)
        → ReadsBuffer setting.plan buffer i → IsHeard setting m above i → HasRoom setting W buffer
        → AreWindows setting clocks.running W N run → count_by is_none (puts_of run buffer) ≡ 0 }
{}

/// A run in windows that was broken off refuses no put to a buffer whose reader is always heard, and which has room for
/// two windows and its prefill. An output or a feed plays such a reader, or nodes above it that always use it.
pub fn broken_windows_refuse_nothing()
    ensures { (setting : Setting) (clocks : Map) → IsSetting setting clocks
        → (W N buffer m : ℕ) (above : List ℕ) (i : ℕ) (run : Run)
        → ReadsBuffer setting.plan buffer i → IsHeard setting m above i → HasRoom setting W buffer
        → AreWindowsBegun setting clocks.running W N run → count_by is_none (puts_of run buffer) ≡ 0 }
{}

/// A buffer that gathers whole ticks before it plays has room for windows of W ticks where it holds at least 2W - 1
/// ticks more.
pub fn whole_ticks_have_room()
    ensures { (setting : Setting) (W buffer gathers holds : ℕ) → 1 ≤ setting.plan.frame → 1 ≤ gathers
        → prefill setting buffer ≡ gathers * setting.plan.frame → capacity_of setting buffer ≡ holds
        → W + W + gathers ≤ suc holds
        → HasRoom setting W buffer }
{}
