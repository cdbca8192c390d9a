// The sinks of the outputs are closed.
ghost use Rattle.std.specs.Prelude.{◌≡◌, ◌<◌, ◌+◌, ◌^◌, ◌⊎◌, ◌∷◌, [], ℕ, List, length, map, slice_get, Some, IfErr};
ghost use Rattle.std.specs.Prelude.{IfOk, IsErrOf, IsSomeAnd, OnOk, OnErr, is_ok, true, false};
ghost use Rattle.std.specs.Option.{ForSome};
ghost use Rattle.liq_base.specs.Counts.{Rose};
ghost use Rattle.liq_base.specs.Shelves.{Closing, ShelfTold};
ghost use Rattle.stations.specs.Creations.{HaveClosed, HaveListed};
ghost use Rattle.stations.specs.Outputs.{HoldsEnds, HoldsParts, OutputPart, whole_of, with_outputs};
ghost use Rattle.stations.specs.Renderings.{WrotePart};
ghost use Rattle.stations.specs.Stations.{Station};
ghost use Rattle.station_render.specs.Faults.{is_device};
ghost use Rattle.station_render.specs.Listed.{WillClose, WillList};
ghost use Rattle.station_render.specs.OutputSinks.{HaveRooms, HoldsBody, HoldsSoMuch, inner};
ghost use Rattle.station_render.specs.Runs.{RanPart, RanWhole, WroteOutputs};
ghost use Rattle.station_render.specs.Shelves.{OnlyCloses, OnlyCreates};
ghost use Rattle.station_render.specs.Sinks.{AreCreated, HasFailed, HaveSizes, AreAllEmpty, WasTaken, lists_of};

use crate::output_sink::{OutputSink, end_if};
use crate::{RenderFault, Rendered};
use liq_base::{Failed, Shelf};

/// Closes the sinks of all outputs in sink order, whatever was written. `wrote` is what is told of the run, or the
/// run's fault. It is the answer too, unless all went well but a closing failed, whose fault then is. `order` has the
/// clock of each sink, and `groups` the sinks of each clock.
pub(crate) fn close_all<S: Shelf>(
    shelf: &mut S,
    order: &[u32],
    groups: Vec<Vec<OutputSink<S::Out>>>,
    wrote: Result<Rendered, RenderFault>,
) -> Result<Rendered, RenderFault>
    requires sizes { HaveSizes order.now (lists_of groups.items) }
    requires rooms { OnOk wrote (HaveRooms S.Out.told (lists_of groups.items)) }
    ensures done { (station : Station) (first : ShelfTold) → OnlyCreates first (S.told shelf.old)
        → station.ticks + 2 < 2 ^ 64
        → IfOk wrote (RanWhole S.Out.told first station order.now (lists_of groups.items))
        → IfOk result (WroteOutputs station first (S.told shelf.new)) }
    ensures part { IfErr result (λ fault. (station : Station) (first : ShelfTold) → OnlyCreates first (S.told shelf.old)
        → (ran : RanPart S.Out.told first station order.now (lists_of groups.items) (S.told shelf.old).created)
        → ran.parts.others ≡ []
        → IfOk wrote (RanWhole S.Out.told first station order.now (lists_of groups.items))
        → ForSome first.files (λ files. WrotePart station (is_device fault) files first (S.told shelf.new))) }
    ensures cause { IsErrOf result RenderFault.Write
        → IsErrOf wrote RenderFault.Write ⊎ Rose (S.told shelf.old).writes (S.told shelf.new).writes }
    ensures failed { HasFailed (inner S.Out.told) (lists_of groups.items)
        → Rose (S.told shelf.old).writes (S.told shelf.new).writes }
    ensures well { OnOk result (is_ok wrote ≡ true) }
    ensures closed { (names : List (List ℕ))
        → AreCreated (WillClose S.Out.told (S.told shelf.old).closed) names order.now (lists_of groups.items)
        → HaveClosed 1 names (S.told shelf.old).closed (S.told shelf.new).closed }
    ensures shelf { OnlyCloses (S.told shelf.old) (S.told shelf.new) }
{
    let closed = close_each(shelf, order, groups, wrote.is_ok());
    let rendered = wrote?;
    closed?;
    Ok(rendered)
}

/// Closes the sinks of the outputs that were created, in sink order, after a fault of the opening, and returns this
/// fault, whatever the closings came to. `order` has the clock of each sink, and `groups` the sinks of each clock.
pub(crate) fn close_broken<S: Shelf>(
    shelf: &mut S,
    order: &[u32],
    groups: Vec<Vec<OutputSink<S::Out>>>,
    fault: RenderFault,
) -> RenderFault
    requires { HaveSizes order.now (lists_of groups.items) }
    ensures same { result ≡ fault }
    ensures part { (station : Station) (first : ShelfTold) → OnlyCreates first (S.told shelf.old)
        → (ran : RanPart S.Out.told first station order.now (lists_of groups.items) (S.told shelf.old).created)
        → ((m : ℕ) → ran.begun.made m ≡ 0)
        → (is_device fault ≡ true → Rose first.writes (S.told shelf.old).writes
        ⊎ HasFailed (inner S.Out.told) (lists_of groups.items))
        → ForSome first.files (λ files. WrotePart station (is_device fault) files first (S.told shelf.new)) }
    ensures failed { HasFailed (inner S.Out.told) (lists_of groups.items)
        → Rose (S.told shelf.old).writes (S.told shelf.new).writes }
    ensures closed { (names : List (List ℕ))
        → AreCreated (WillClose S.Out.told (S.told shelf.old).closed) names order.now (lists_of groups.items)
        → HaveClosed 1 names (S.told shelf.old).closed (S.told shelf.new).closed }
    ensures shelf { OnlyCloses (S.told shelf.old) (S.told shelf.new) }
{
    let _closed = close_each(shelf, order, groups, false);
    fault
}

// Closes the sinks in sink order, also those behind one whose closing failed, and tells the first failure. `order`
// has the clock of each sink, and `groups` the sinks of each clock. `well` says that all went well before; as long as
// it does, each sink gets the byte that it owes before it is closed.
fn close_each<S: Shelf>(
    shelf: &mut S,
    order: &[u32],
    groups: Vec<Vec<OutputSink<S::Out>>>,
    well: bool,
) -> Result<(), Failed>
    requires sizes { HaveSizes order.now (lists_of groups.items) }
    requires rooms { well ≡ true → HaveRooms S.Out.told (lists_of groups.items) }
    ensures whole { OnOk result (well ≡ true → ForSome (S.told shelf.old).files (λ files. (outputs : List OutputPart)
        → AreCreated (HoldsBody S.Out.told) outputs order.now (lists_of groups.items)
        → (S.told shelf.new).files ≡ Some (with_outputs files (map whole_of outputs)))) }
    ensures ends { OnErr result (well ≡ true → ForSome (S.told shelf.old).files (λ files. (outputs : List OutputPart)
        → AreCreated (HoldsBody S.Out.told) outputs order.now (lists_of groups.items)
        → IsSomeAnd (S.told shelf.new).files
        (λ now. HoldsEnds (S.told shelf.old).writes files outputs now (S.told shelf.new).writes))) }
    ensures part { well ≡ false → ForSome (S.told shelf.old).files (λ files. (outputs : List OutputPart)
        → AreCreated (HoldsSoMuch S.Out.told) outputs order.now (lists_of groups.items)
        → IsSomeAnd (S.told shelf.new).files
        (λ now. HoldsParts (S.told shelf.old).writes files outputs now (S.told shelf.new).writes)) }
    ensures cause { OnErr result (Rose (S.told shelf.old).writes (S.told shelf.new).writes) }
    ensures failed { HasFailed (inner S.Out.told) (lists_of groups.items)
        → Rose (S.told shelf.old).writes (S.told shelf.new).writes }
    ensures closed { (names : List (List ℕ))
        → AreCreated (WillClose S.Out.told (S.told shelf.old).closed) names order.now (lists_of groups.items)
        → HaveClosed 1 names (S.told shelf.old).closed (S.told shelf.new).closed }
    ensures listed { OnOk result (well ≡ true → (closings : List Closing)
        → AreCreated (WillList S.Out.told (S.told shelf.old).closed) closings order.now (lists_of groups.items)
        → HaveListed closings (S.told shelf.old).closed (S.told shelf.new).closed) }
    ensures shelf { OnlyCloses (S.told shelf.old) (S.told shelf.new) }
{
    let Some((clock, rest)) = order.split_first() else {
        end_all(groups);
        return Ok(());
    };
    let mut groups = groups;
    let mut output = take_first(&mut groups, *clock);
    let ended = end_if(well, &mut output);
    let OutputSink { sink, odd: _odd } = output;
    let first = shelf.close(sink);
    let goes_on = still_well(well, ended, first);
    let others = close_each(shelf, rest, groups, goes_on);
    ended?;
    first?;
    others
}

// Whether all still goes well: it did before, the last byte of a sink was taken, and the sink was closed.
fn still_well(well: bool, ended: Result<(), Failed>, closed: Result<(), Failed>) -> bool
    ensures before { result ≡ true → well ≡ true }
    ensures unwell { well ≡ false → result ≡ false }
    ensures ended { OnErr ended (result ≡ false) }
    ensures closed { OnErr closed (result ≡ false) }
    ensures still { OnOk ended (OnOk closed (result ≡ well)) }
{
    well && ended.is_ok() && closed.is_ok()
}

// Takes the first sink of this clock out of `groups`, the list of each clock's sinks. By the contract there is one.
fn take_first<O>(groups: &mut Vec<Vec<O>>, clock: u32) -> O
    requires { (first : O) × (rest : List O) × (slice_get (lists_of groups.old.items) clock ≡ Some (first ∷ rest)) }
    ensures { WasTaken clock (lists_of groups.old.items) result (lists_of groups.new.items) }
{
    groups[clock as usize].remove(0)
}

// Frees the lists of the clocks' sinks, once all sinks are taken out of them.
fn end_all<O>(groups: Vec<Vec<O>>)
    requires { AreAllEmpty (lists_of groups.items) }
{
    let mut groups = groups;
    while let Some(group) = groups.pop() {
        group.destroy_empty();
    }
    groups.destroy_empty();
}
