// The law of summaries: the contract of a function that does nothing.
ghost use Rattle.std.specs.Prelude.{◌<◌};
ghost use Rattle.liq_base.specs.Files.{Files};
ghost use Rattle.run_records.specs.Records.{Run};
ghost use Rattle.run_records.specs.Rounds.{HasNoJoin};
ghost use Rattle.stations.specs.Findings.{IsFit};
ghost use Rattle.stations.specs.Stations.{IsLawful, Station, bare};
ghost use Rattle.station_jobs.specs.Summary.{SumsAsOneThread, summary_of};

/// A law: where no buffer joins two clocks, the summary of a lawful run is that of rounds on one thread, whatever the
/// length of its windows.
pub fn sums_are_as_on_one_thread()
    ensures { (made : Files) (station : Station) (run : Run)
        → IsFit station.plan station.library station.clocks station.ticks
        → station.start < 604800 → IsLawful station run → HasNoJoin (bare station) station.clocks.running
        → SumsAsOneThread made station (summary_of made station run) }
{
    run_records::laws::lawful_records_are_rounds();
    run_records::laws::rounds_are_one();
}
