// Laws of replays. Each is the contract of a function that does nothing.
ghost use Rattle.std.specs.Prelude.{◌≡◌, ◌<◌, ◌≤◌, ◌^◌, ℕ, List, IsSomeAnd, None, Some, false};
ghost use Rattle.liq_base.specs.Files.{Files, file_at};
ghost use Rattle.liq_base.specs.Shelves.{ShelfTold};
ghost use Rattle.run_records.specs.Records.{Run};
ghost use Rattle.stations.specs.Findings.{IsFit};
ghost use Rattle.stations.specs.Stations.{InWindows, IsLawful, Station, bare};
ghost use Rattle.trace_log.specs.Texts.{trace_text};
ghost use Rattle.trace_records.specs.Listings.{LeadOnward};
ghost use Rattle.trace_records.specs.Traces.{IsAccepted, trace_of};
ghost use Rattle.liq_cli.specs.Again.{IsRenderedAgain};
ghost use Rattle.station_jobs.specs.Jobs.{Wrote};
ghost use Rattle.station_jobs.specs.Replays.{HasText};
ghost use Rattle.station_jobs.specs.Verdicts.{IsPrepared};
ghost use Rattle.station_jobs.specs.Words.{rendering_by};

/// A run by threads that wrote a trace left it under its name.
pub fn runs_leave_their_trace()
    ensures { (files : Files) (station : Station) (old new : ShelfTold) (report : List ℕ) (window : ℕ) (name : List ℕ)
        → (wrote : Wrote station files old new report)
        → station.way ≡ InWindows window → station.trace ≡ Some name
        → IsSomeAnd new.files (λ later. file_at later name
        ≡ Some (trace_text (trace_of window station.ticks wrote.run))) }
{}

/// A run by threads whose trace is accepted is rendered again by that trace, to the same outputs and the same report:
/// over all files that hold the trace, which has at most 268435456 bytes, and in which the script has the same plan,
/// audio files and clocks.
pub fn accepted_runs_are_rendered_again()
    ensures { (files : Files) (file name : List ℕ) (station : Station) (window : ℕ) (run : Run)
        → station.way ≡ InWindows window → 1 ≤ window → window ≤ 10 ^ 6
        → IsFit station.plan station.library station.clocks station.ticks → station.start < 604800
        → IsLawful station run
        → IsAccepted (bare station) station.clocks.running station.ticks (trace_of window station.ticks run)
        → HasText files name (trace_text (trace_of window station.ticks run))
        → IsPrepared files (rendering_by file station.start station.ticks None false) station.plan station.library
        station.clocks
        → IsRenderedAgain files file name station (trace_of window station.ticks run) run }
{
    trace_replay::laws::replays_are_of_the_run();
}

/// If the main clocks can be listed so that each buffer that joins two of them leads to a later one, each run by
/// threads is rendered again by its trace, to the same outputs and the same report: over all files that hold the trace,
/// which has at most 268435456 bytes, and in which the script has the same plan, audio files and clocks.
pub fn onward_runs_are_rendered_again()
    ensures { (files : Files) (file name : List ℕ) (station : Station) (window : ℕ) (run : Run) (listing : List ℕ)
        → station.way ≡ InWindows window → 1 ≤ window → window ≤ 10 ^ 6
        → IsFit station.plan station.library station.clocks station.ticks → station.start < 604800
        → IsLawful station run → LeadOnward (bare station) station.clocks.running listing
        → HasText files name (trace_text (trace_of window station.ticks run))
        → IsPrepared files (rendering_by file station.start station.ticks None false) station.plan station.library
        station.clocks
        → IsRenderedAgain files file name station (trace_of window station.ticks run) run }
{
    trace_replay::laws::onward_traces_are_accepted();
    accepted_runs_are_rendered_again();
}
