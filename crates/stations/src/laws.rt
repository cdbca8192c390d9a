// Laws of stations. Each is a contract of a function that does nothing.
ghost use Rattle.std.specs.Prelude.{◌≡◌, ℕ, ◌+◌, ◌*◌, ◌++◌, ◌<◌, Bool, length};
ghost use Rattle.liq_base.specs.Files.{Files};
ghost use Rattle.plan_core.specs.Plans.{IsWellFormed};
ghost use Rattle.stations.specs.Creations.{AreNamesOfFiles};
ghost use Rattle.stations.specs.Findings.{IsRenderable};
ghost use Rattle.run_records.specs.Records.{Run};
ghost use Rattle.run_records.specs.Rounds.{HasNoJoin};
ghost use Rattle.stations.specs.Renderings.{BeginsAsOneThread, HasOneRecord, IsDetermined, RendersAsOneThread};
ghost use Rattle.stations.specs.Stations.{IsBegun, IsLawful, Station, bare, setting_of_run};
ghost use Rattle.stations.specs.Streams.{HasNoGaps, body_size, bytes_of, header_for, zeros_after};
ghost use Rattle.stream_meaning.specs.Sinks.{kind_of, ticks_bytes};
ghost use Rattle.wav_io.specs.Header.{block_align, padded};

/// Whatever buffers answer, an output has no gap if its node is infallible, that is, offers a cell at each instant by
/// the rule of `docs/fallible.md`.
pub fn infallible_outputs_have_no_gaps()
    ensures { (files : Files) (station : Station) (run : Run) → IsWellFormed station.plan
        → IsRenderable files station.plan station.ticks station.library station.clocks → station.start < 604800
        → HasNoGaps station run }
{
    stream_meaning::laws::infallible_nodes_offer();
}

/// Where no buffer joins two running clocks, that is, is fed in one and read in the other, a lawful run renders what
/// one thread renders in rounds, one tick of each clock after another. The length of its windows does not matter.
/// So it is for a replay.
pub fn threads_render_as_one_thread()
    ensures { (files : Files) (station : Station) (run : Run) → IsWellFormed station.plan
        → IsRenderable files station.plan station.ticks station.library station.clocks → station.start < 604800
        → IsLawful station run → HasNoJoin (bare station) station.clocks.running → RendersAsOneThread station run }
{
    run_records::laws::lawful_records_are_rounds();
    run_records::laws::rounds_are_one();
}

/// A rendering on one thread has one record of its calls on buffers, so it always writes and tells the same.
/// So it is for rounds, one tick of each clock after another, and for the turns of a trace.
pub fn one_thread_has_one_record()
    ensures { (files : Files) (station : Station) (run : Run) → IsWellFormed station.plan
        → IsRenderable files station.plan station.ticks station.library station.clocks → station.start < 604800
        → IsLawful station run → HasOneRecord station run }
{
    run_records::laws::rounds_are_one();
}

/// A rendering that was broken off begins what one thread renders in rounds, one tick of each clock after another.
/// So it is where that is determined: for rounds themselves, or where no buffer joins two running clocks.
pub fn broken_renderings_begin_those_of_one_thread()
    ensures { (files : Files) (station : Station) (run : Run) → IsWellFormed station.plan
        → IsRenderable files station.plan station.ticks station.library station.clocks → station.start < 604800
        → IsBegun station run → IsDetermined station → BeginsAsOneThread station run }
{
    run_records::laws::broken_windows_begin_rounds();
    run_records::laws::broken_rounds_begin_rounds();
    run_records::laws::lawful_records_are_rounds();
    run_records::laws::rounds_are_one();
    run_records::laws::rounds_have_a_record();
}

/// The bytes of an output are its header of 44 bytes, then those of the samples of all ticks, and then one zero byte
/// where their count is odd, as the form of WAV files asks.
pub fn outputs_are_whole()
    ensures bytes { (station : Station) (run : Run) (wide : Bool) (node : ℕ) → bytes_of station run wide node
        ≡ header_for (setting_of_run station run) wide station.ticks node
        ++ ticks_bytes (setting_of_run station run) wide node station.ticks
        ++ zeros_after (body_size (setting_of_run station run) wide station.ticks node) }
    ensures long { (station : Station) (run : Run) (wide : Bool) (node : ℕ) → length (bytes_of station run wide node)
        ≡ 44 + padded (station.ticks * station.plan.frame * block_align wide
        (kind_of (setting_of_run station run) node)) }
{}

/// The names under which a rendering creates its files are those of the files that each run writes, in their order.
pub fn files_are_created_by_name()
    ensures { (station : Station) (run : Run) → AreNamesOfFiles station run }
{}
