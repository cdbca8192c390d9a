// Laws of traces. Each is the contract of a function that does nothing.
ghost use Rattle.std.specs.Prelude.{◌≡◌, ◌≤◌, ◌++◌, ℕ, true, List, Option, is_some, length, map};
ghost use Rattle.clock_infer.specs.declared.clock_map.ClockMap.{ClockMap as Map};
ghost use Rattle.frame_core.specs.declared.cell.Cell.{Cell};
ghost use Rattle.frame_core.specs.Frames.{somes};
ghost use Rattle.frame_core.specs.Legal.{Legal};
ghost use Rattle.stream_meaning.specs.Instants.{Setting};
ghost use Rattle.stream_meaning.specs.Settings.{IsSetting};
ghost use Rattle.run_records.specs.Ordered.{IsOrdered};
ghost use Rattle.run_records.specs.Records.{AreWindows, Run, setting_in};
ghost use Rattle.buffer_ends.specs.Local.{Answers};
ghost use Rattle.buffer_sides.specs.Logs.{told};
ghost use Rattle.trace_records.specs.Listings.{LeadOnward};
ghost use Rattle.trace_records.specs.Traces.{IsRecordOf, IsAccepted, trace_of};
ghost use Rattle.trace_log.specs.Values.{TraceValue};
ghost use Rattle.trace_records.specs.Told.{is_legal};

/// A law: if the answers of a buffer in a window of ticks are those of a legal window, they are legal with any chunks
/// that come out in the order in which they went in. `queue` has the chunks that the buffer holds before the window,
/// and `rest` those after it.
pub fn told_windows_are_legal()
    ensures { (capacity : ℕ) (rest queue : List (List Cell)) (puts takes : List (Option (List Cell))) → 1 ≤ capacity
        → length queue ≤ capacity
        → is_legal capacity (length queue) (map is_some puts) (map is_some takes) ≡ true
        → queue ++ somes puts ≡ somes takes ++ rest → Legal capacity rest queue puts takes }
{}

/// A law: where the main clocks can be listed so that each buffer between two clocks leads to a later one, the ticks of
/// every lawful record of a run can be put in one order. A window has `W` ticks, and the run `N`.
pub fn onward_records_are_ordered()
    ensures { (base : Setting) (clocks : Map) → IsSetting base clocks → (W N : ℕ) (run : Run)
        → (lawful : AreWindows base clocks.running W N run) → (listing : List ℕ)
        → LeadOnward base clocks.running listing → IsOrdered (setting_in base run) clocks.running lawful.accepted N }
{}

/// A law: the trace of a lawful record of a run, whose ticks can be put in one order, is accepted for a replay. A
/// window has `W` ticks, and the run `N`.
pub fn ordered_traces_are_accepted()
    ensures { (base : Setting) (clocks : Map) → IsSetting base clocks → (W N : ℕ) (run : Run)
        → (lawful : AreWindows base clocks.running W N run)
        → IsOrdered (setting_in base run) clocks.running lawful.accepted N
        → IsAccepted base clocks.running N (trace_of W N run) }
{}

/// A law: where the main clocks can be listed so that each buffer that joins two clocks leads to a later one, the trace
/// of every lawful record is accepted for a replay. A window has `W` ticks, and the run `N`.
pub fn onward_traces_are_accepted()
    ensures { (base : Setting) (clocks : Map) → IsSetting base clocks → (W N : ℕ) (run : Run)
        → AreWindows base clocks.running W N run → (listing : List ℕ)
        → LeadOnward base clocks.running listing → IsAccepted base clocks.running N (trace_of W N run) }
{}

/// A law: where the main clocks can be listed so that each buffer that joins two clocks leads to a later one, the trace
/// of a run by threads is accepted for a replay. Its logs are the answers of a lawful record. A window has `W` ticks,
/// and the run `N`.
pub fn logs_of_onward_runs_are_accepted()
    ensures { (base : Setting) (clocks : Map) → IsSetting base clocks → (W N : ℕ) (run : Run)
        → AreWindows base clocks.running W N run → (logs : List (List Answers)) → logs ≡ map (map told) run.buffers
        → (listing : List ℕ) → LeadOnward base clocks.running listing → IsAccepted base clocks.running N (record {
          ticks = N;
          window = W;
          buffers = logs;
        }) }
{}

/// A law: a trace that is accepted for a replay tells one record: that of the run that left it, if a run left it. The
/// run has `N` ticks.
pub fn accepted_traces_tell_one_record()
    ensures { (base : Setting) (clocks : Map) → IsSetting base clocks → (N : ℕ) (trace : TraceValue)
        → (accepted : IsAccepted base clocks.running N trace)
        → (run : Run) → AreWindows base clocks.running trace.window N run → trace ≡ trace_of trace.window N run
        → accepted.ordered.run ≡ run }
{}

/// A law: the record of a replay is that of the run that left the trace, if a run left it, so the replay makes the
/// run's bytes. `run` is the record that the trace tells, and `other` that of the run.
pub fn replays_are_of_the_run()
    ensures { (base : Setting) (clocks : Map) → IsSetting base clocks → (trace : TraceValue) (run other : Run)
        → IsRecordOf base clocks.running trace run
        → AreWindows base clocks.running trace.window trace.ticks other
        → trace ≡ trace_of trace.window trace.ticks other → run ≡ other }
{}
