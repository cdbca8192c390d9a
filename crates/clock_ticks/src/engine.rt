// The engine of one clock.
ghost use Rattle.clock_ticks.specs.declared.fault.TickFault.{TickFault as Fault};
ghost use Rattle.clock_ticks.specs.declared.fault.TickFault.TheVariants.{Memory as OutOfMemory, Write};
ghost use Rattle.frame_core.specs.Calls.{Call, Answer};
ghost use Rattle.clock_outputs.specs.Feeds.{HaveGiven, HaveGivenSome};
ghost use Rattle.std.specs.Prelude.{◌≡◌, ◌<◌, ◌≤◌, ◌+◌, ◌⊎◌, ℕ, Some, None, true, false, List, [], All, map, length};
ghost use Rattle.std.specs.Prelude.{IfOk, OnOk, OnErr, IfErr};
ghost use Rattle.plan_core.specs.Plans.{IsWellFormed};
ghost use Rattle.clock_infer.specs.Answers.{IsClockMap};
ghost use Rattle.frame_core.specs.Library.{IsLibrary};
ghost use Rattle.clock_ticks.specs.Standing.{IsClockState};
ghost use Rattle.clock_ticks.specs.Hearings.{Heard, HeardSome};
ghost use Rattle.clock_ticks.specs.Engines.{AreClocksOf, AreParts, EngineStands, EngineStopped, IsWhole, after_tick};
ghost use Rattle.clock_ticks.specs.Engines.{feed_of, outputs_of, hearing_of, setting_of};
ghost use Rattle.clock_ticks.specs.Pieces.{GotSomePieces};
ghost use Rattle.stream_meaning.specs.Sinks.{cues, gaps, IsOutput};
ghost use Rattle.clock_ticks.specs.Cues.{mark_of};
ghost use Rattle.stream_meaning.specs.Instants.{with_rest};
ghost use Rattle.clock_instants.specs.Takes.{HasReader};
ghost use Rattle.clock_ticks.specs.Ticks.{HasEnds, HasFailed, HasMade, HaveTickRoom, HaveTicksRoom, IsWriteFault};
ghost use Rattle.clock_ticks.specs.Ticks.{TookTick};

use crate::TickFault;
use crate::clock_state::ClockState;
use crate::cues::{CueMark, Cues, cues_of, whole_marks};
use crate::outputs::{feeds_of, ports_of};
use crate::parts::{clocks_of, is_main, own_roots};
use crate::run::run_tick;
use clock_infer::{ClockMap, NodeClock};
use clock_nodes::Scene;
use clock_outputs::{FeedPort, Port, append_all, give_all};
use fixed_text::WeekSecond;
use frame_core::{Library, Taps};
use liq_base::{Memory, Sink};
use node_states::{NodeState, WeekTime};
use plan_core::Plan;
use std::alloc::Global;
use std::marker::Model;

/// What an engine runs over and what changes from tick to tick, but for its sinks.
#[derive(Drop)]
pub struct EngineParts<'a> {
    pub scene: Scene<'a>,

    /// The number of its main clock.
    pub clock: u32,
    /// The second of the week in which its first instant lies.
    pub start: WeekSecond,

    /// For each node, whether its own clock demands it of itself: the nodes of sinks, and the children of crossfades.
    pub own: Vec<bool>,
    pub state: ClockState,

    /// The outputs of the clock, in sink order.
    pub ports: Vec<Port>,

    /// The feeds of the clock, in sink order.
    pub feeds: Vec<FeedPort>,

    /// The marks of the outputs.
    pub cues: Cues,

    /// How many ticks were made.
    pub ticks: u64,
    /// The fault that stopped it, if one did.
    pub stopped: Option<TickFault>,
}

/// The engine of one main clock, with the sinks of its outputs, in sink order. Contracts see an `Engine`: its parts and
/// the list of its sinks. Each one is whole: its parts fit together, and it has a sink for each output of the clock.
pub struct ClockEngine<'a, O> {
    parts: EngineParts<'a>,
    outs: Vec<O>,
}

impl<'a, O> Model for ClockEngine<'a, O> {
    ghost use Rattle.std.specs.Coded.{codes};
    ghost use Rattle.time_pred.specs.Stored.{predicate_code};
    ghost use Rattle.clock_ticks.specs.Engines.{Engine, IsWhole};

    ghost Value = { Engine O };

    ghost coded = { Prim.hlevel (codes, predicate_code) };

    ghost view = { λ e. record { parts = e.parts; outs = e.outs.items } };

    ghost invariant = { λ e. IsWhole (record { parts = e.parts; outs = e.outs.items }) };
}

// The parts of a new engine of main clock `clock`, whose first instant lies in second `start` of the week. `scene` is
// the plan with its clocks and its library of files. The engine has made no tick, keeps no marks of tracks and has not
// stopped.
fn make_parts<'a>(
    alloc: Global,
    scene: Scene<'a>,
    clock: u32,
    start: WeekSecond,
) -> Result<EngineParts<'a>, Memory>
    requires plan { IsWellFormed scene.plan.now }
    requires in_clocks { length scene.clocks.now ≡ length scene.plan.now.nodes }
    requires clocks { AreClocksOf scene.plan.now scene.clocks.now }
    requires library { IsLibrary scene.library.now }
    requires leaves { length scene.library.now.leaves ≡ length scene.plan.now.nodes }
    ensures parts { IfOk result AreParts }
    ensures setting { IfOk result (λ parts. setting_of parts ≡ record {
      plan = scene.entry.plan.now;
      library = scene.entry.library.now;
      clocks = scene.entry.clocks.now;
      start = start.second;
      answers = λ buffer. [];
    }) }
    ensures clock { IfOk result (λ parts. parts.clock ≡ clock) }
    ensures stands { IfOk result (λ parts. EngineStands parts 0 (λ buffer. [])) }
    ensures keeps { IfOk result (λ parts. parts.cues.keeping ≡ false) }
{
    let time = WeekTime::new(start, scene.plan.rate, scene.plan.frame);
    let clocks = clocks_of(alloc, &scene, clock, time)?;
    let own = own_roots(alloc, &scene)?;
    let ports = ports_of(alloc, &scene, clock)?;
    let feeds = feeds_of(alloc, &scene, clock)?;
    let cues = cues_of(alloc, ports.len())?;
    Ok(EngineParts {
        scene,
        clock,
        start,
        own,
        state: ClockState {
            clocks,
            time,
            segments: 0,
        },
        ports,
        feeds,
        cues,
        ticks: 0,
        stopped: None,
    })
}

// Makes the instants of the next tick; by `taps` readers take from buffers. The ports of outputs and the feeds take
// what their nodes offer, and `cues` gets a mark where a track begins. Sinks and buffers get nothing yet.
fn run_parts<T: Taps>(parts: &mut EngineParts<'_>, taps: &mut T) -> Result<(), Memory>
    requires parts { AreParts parts.old }
    requires few { parts.old.ticks < 1000000000 }
    requires buffers { T.buffers taps.old ≡ length parts.old.scene.plan.now.buffers }
    ensures kept { parts.new ≡ after_tick parts.old parts.new parts.old.ticks parts.old.stopped }
    ensures state { IsClockState parts.old.scene parts.new.state }
    ensures frames { All (λ feed. parts.old.scene.plan.now.frame ≤ feed.frame.room) parts.new.feeds.items }
    ensures feeds { map feed_of parts.new.feeds.items ≡ map feed_of parts.old.feeds.items }
    ensures buffers { T.buffers taps.new ≡ T.buffers taps.old }
    ensures same { T.same taps.old taps.new }
    ensures heard { OnOk result
        (Heard T.stands parts.old.scene (NodeClock.Main parts.old.clock) parts.old.own.items
        parts.old.scene.plan.now.frame
        (hearing_of parts.old taps.old) (hearing_of parts.new taps.new)) }
    ensures stopped { OnErr result
        (HeardSome T.stands parts.old.scene (NodeClock.Main parts.old.clock) parts.old.own.items
        parts.old.scene.plan.now.frame
        (hearing_of parts.old taps.old) (hearing_of parts.new taps.new)) }
    ensures cues { parts.new.cues.keeping ≡ parts.old.cues.keeping }
    ensures needs { OnErr result (HasReader parts.old.scene.plan.now parts.old.scene.clocks.now
        (NodeClock.Main parts.old.clock)
        ⊎ (parts.old.cues.keeping ≡ true)) }
{
    let clock = NodeClock::Main(parts.clock);
    let start = parts.ticks * parts.scene.plan.frame as u64;
    run_tick(
        &parts.scene,
        clock,
        &parts.own,
        &mut parts.state,
        &mut parts.ports,
        &mut parts.feeds,
        &mut parts.cues,
        start,
        taps,
    )
}

// Makes the instants of the next tick, as `run_parts`. If memory is refused, it notes this fault in `parts.stopped`, by
// which the engine has stopped, and answers it.
fn run_or_stop<T: Taps>(parts: &mut EngineParts<'_>, taps: &mut T) -> Result<(), TickFault>
    requires parts { AreParts parts.old }
    requires few { parts.old.ticks < 1000000000 }
    requires buffers { T.buffers taps.old ≡ length parts.old.scene.plan.now.buffers }
    ensures kept { OnOk result (parts.new ≡ after_tick parts.old parts.new parts.old.ticks parts.old.stopped) }
    ensures ended { IfErr result (λ fault. (fault ≡ OutOfMemory)
        × (parts.new ≡ after_tick parts.old parts.new parts.old.ticks (Some OutOfMemory))) }
    ensures state { IsClockState parts.old.scene parts.new.state }
    ensures frames { All (λ feed. parts.old.scene.plan.now.frame ≤ feed.frame.room) parts.new.feeds.items }
    ensures feeds { map feed_of parts.new.feeds.items ≡ map feed_of parts.old.feeds.items }
    ensures buffers { T.buffers taps.new ≡ T.buffers taps.old }
    ensures same { T.same taps.old taps.new }
    ensures heard { OnOk result
        (Heard T.stands parts.old.scene (NodeClock.Main parts.old.clock) parts.old.own.items
        parts.old.scene.plan.now.frame
        (hearing_of parts.old taps.old) (hearing_of parts.new taps.new)) }
    ensures stopped { OnErr result
        (HeardSome T.stands parts.old.scene (NodeClock.Main parts.old.clock) parts.old.own.items
        parts.old.scene.plan.now.frame
        (hearing_of parts.old taps.old) (hearing_of parts.new taps.new)) }
    ensures cues { parts.new.cues.keeping ≡ parts.old.cues.keeping }
    ensures needs { OnErr result (HasReader parts.old.scene.plan.now parts.old.scene.clocks.now
        (NodeClock.Main parts.old.clock)
        ⊎ (parts.old.cues.keeping ≡ true)) }
{
    match run_parts(parts, taps) {
        Ok(()) => Ok(()),
        Err(_) => {
            parts.stopped = Some(TickFault::Memory);
            Err(TickFault::Memory)
        }
    }
}

// Puts the chunk of cells that each feed gathered in the tick into its buffer, by `taps`. If memory is refused, it
// notes this fault in `parts.stopped`, by which the engine has stopped, and answers it.
fn give_or_stop<T: Taps>(
    alloc: Global,
    parts: &mut EngineParts<'_>,
    taps: &mut T,
) -> Result<(), TickFault>
    requires { All (λ feed. feed.buffer < T.buffers taps.old) parts.old.feeds.items }
    ensures kept { OnOk result (parts.new ≡ parts.old) }
    ensures ended { IfErr result (λ fault. (fault ≡ OutOfMemory)
        × (parts.new ≡ after_tick parts.old parts.old parts.old.ticks (Some OutOfMemory))) }
    ensures buffers { T.buffers taps.new ≡ T.buffers taps.old }
    ensures same { T.same taps.old taps.new }
    ensures given { OnOk result
        (HaveGiven T.stands parts.old.feeds.items (length parts.old.feeds.items) taps.old taps.new) }
    ensures stopped { OnErr result (HaveGivenSome T.stands parts.old.feeds.items taps.old taps.new) }
    ensures feeds { OnErr result (0 < length parts.old.feeds.items) }
{
    match give_all(alloc, &parts.feeds, taps) {
        Ok(()) => Ok(()),
        Err(_) => {
            parts.stopped = Some(TickFault::Memory);
            Err(TickFault::Memory)
        }
    }
}

// At how many instants of whole ticks the output `port` had nothing to play. If a fault stopped the engine, those of
// the tick in which it did are left out.
fn whole_gaps(port: &Port, stopped: Option<TickFault>) -> u64
    ensures runs { stopped ≡ None → result ≡ port.now.gaps }
    ensures stopped { (fault : Fault) → stopped ≡ Some fault → result ≡ port.now.gaps_before }
{
    match stopped {
        None => port.gaps,
        Some(_) => port.gaps_before,
    }
}

impl<'a, O: Sink> ClockEngine<'a, O> {
    /// An engine of a running main clock that made no tick: over a plan, its clocks, its files, and one sink for each
    /// output of the clock, in sink order. Its first instant lies in second `start` of the week. It keeps no marks. If
    /// memory is refused, the sinks come back.
    pub fn new(
        alloc: Global,
        plan: &'a Plan,
        clocks: &'a ClockMap,
        clock: u32,
        library: &'a Library,
        outs: Vec<O>,
        start: WeekSecond,
    ) -> Result<ClockEngine<'a, O>, (Vec<O>, Memory)>
        requires plan { IsWellFormed plan.now }
        requires clocks { IsClockMap plan.now clocks.now }
        requires library { IsLibrary library.now }
        requires leaves { length library.now.leaves ≡ length plan.now.nodes }
        requires outs { length outs.items ≡ length (outputs_of (record {
          plan = plan.now;
          library = library.now;
          clocks = clocks.now.of;
          start = start.second;
          answers = λ buffer. [];
        }) clock) }
        ensures setting { IfOk result (λ engine. setting_of engine.parts ≡ record {
          plan = plan.now;
          library = library.now;
          clocks = clocks.now.of;
          start = start.second;
          answers = λ buffer. [];
        }) }
        ensures clock { IfOk result (λ engine. engine.parts.clock ≡ clock) }
        ensures stands { IfOk result (λ engine. EngineStands engine.parts 0 (λ buffer. [])) }
        ensures outs { IfOk result (λ engine. engine.outs ≡ outs.items) }
        ensures keeps { IfOk result (λ engine. engine.parts.cues.keeping ≡ false) }
        ensures back { IfErr result (λ refused. refused.0.items ≡ outs.items) }
    {
        let scene = Scene {
            plan,
            library,
            clocks: clocks.of.as_slice(),
        };
        match make_parts(alloc, scene, clock, start) {
            Ok(parts) => Ok(ClockEngine { parts, outs }),
            Err(refused) => Err((outs, refused)),
        }
    }

    /// Makes a tick: its readers take from the taps, each output of the clock takes its bytes, in one piece and in sink
    /// order, and then each feed gives its chunk, in sink order. A fault stops the engine: memory was refused, or the
    /// sink that it names refused its bytes.
    pub fn tick<T: Taps>(&mut self, alloc: Global, taps: &mut T) -> Result<(), TickFault>
        requires runs { self.old.parts.stopped ≡ None }
        requires few { self.old.parts.ticks < 1000000000 }
        requires room { HaveTickRoom O.told self.old.parts self.old.outs }
        requires buffers { T.buffers taps.old ≡ length self.old.parts.scene.plan.now.buffers }
        ensures whole { IsWhole self.old }
        ensures outs { length self.new.outs ≡ length self.old.outs }
        ensures setting { setting_of self.new.parts ≡ setting_of self.old.parts }
        ensures clock { self.new.parts.clock ≡ self.old.parts.clock }
        ensures room { OnOk result ((ticks : ℕ) → HaveTicksRoom O.told self.old.parts self.old.outs (ticks + 1)
            → HaveTicksRoom O.told self.new.parts self.new.outs ticks) }
        ensures ticked { OnOk result
            (HasMade O.told T.stands self.old.parts self.new.parts self.old.outs self.new.outs taps.old taps.new) }
        ensures stopped { OnErr result
            (HasFailed O.told T.stands self.old.parts self.new.parts self.old.outs self.new.outs taps.old taps.new) }
        ensures taps { T.same taps.old taps.new }
        ensures buffers { T.buffers taps.new ≡ T.buffers taps.old }
        ensures took { OnOk result (TookTick O.told self.old.parts self.old.outs self.new.outs) }
        ensures part { OnErr result (GotSomePieces O.told self.old.outs self.new.outs) }
        ensures cause { IfErr result (λ fault. (sink : ℕ) → fault ≡ Write sink
            → IsWriteFault O.told self.old.parts self.old.outs self.new.outs fault) }
        ensures memory { IfErr result (λ fault. fault ≡ OutOfMemory → HasEnds self.old.parts) }
        ensures fault { IfErr result (λ fault. self.new.parts.stopped ≡ Some fault) }
        ensures runs { OnOk result (self.new.parts.stopped ≡ None) }
        ensures keeping { self.new.parts.cues.keeping ≡ self.old.parts.cues.keeping }
    {
        run_or_stop(&mut self.parts, taps)?;
        if let Err(place) = append_all(&mut self.outs, &self.parts.ports) {
            let fault = TickFault::Write {
                sink: self.parts.ports[place].sink,
            };
            self.parts.stopped = Some(fault);
            return Err(fault);
        }
        give_or_stop(alloc, &mut self.parts, taps)?;
        self.parts.ticks += 1;
        Ok(())
    }

    /// Lets an engine that made no tick keep marks of where the tracks of its outputs begin.
    pub fn keep_cues(&mut self)
        requires new { self.old.parts.ticks ≡ 0 }
        ensures keeping { self.new.parts.cues.keeping ≡ true }
        ensures outs { self.new.outs ≡ self.old.outs }
        ensures setting { setting_of self.new.parts ≡ setting_of self.old.parts }
        ensures clock { self.new.parts.clock ≡ self.old.parts.clock }
        ensures stopped { self.new.parts.stopped ≡ self.old.parts.stopped }
        ensures stands { (ticks : ℕ) (answers : ℕ → List Answer) → EngineStands self.old.parts ticks answers
            → EngineStands self.new.parts ticks answers }
    {
        self.parts.cues.keeping = true;
    }

    /// At how many instants of the ticks made the node of this output, which is one of the clock, offered nothing. A
    /// tick that stopped the engine is not among them. 0 for a sink that is no output of the clock.
    pub fn gaps(&self, sink: u32) -> u64
        requires output { (node : ℕ) × IsOutput (setting_of self.now.parts) self.now.parts.clock sink node }
        ensures made { (ticks : ℕ) (answers rest : ℕ → List Answer) (node : ℕ)
            → EngineStands self.now.parts ticks answers
            → IsOutput (setting_of self.now.parts) self.now.parts.clock sink node
            → result ≡ gaps (with_rest (setting_of self.now.parts) answers rest) node ticks }
        ensures stopped { (ticks : ℕ) (answers rest : ℕ → List Answer) (made : List Call) (node : ℕ)
            → EngineStopped self.now.parts ticks answers made
            → IsOutput (setting_of self.now.parts) self.now.parts.clock sink node
            → result ≡ gaps (with_rest (setting_of self.now.parts) answers rest) node ticks }
    {
        for port in &self.parts.ports {
            if port.sink == sink {
                return whole_gaps(port, self.parts.stopped);
            }
        }
        0
    }

    /// The marks of this output, which is one of the clock: each instant of the ticks made at which its node offered a
    /// cell that begins a track, and its title. A tick that stopped the engine is not among them. There are none where
    /// the engine keeps no marks.
    pub fn cues(&self, sink: u32) -> &[CueMark]
        requires output { (node : ℕ) × IsOutput (setting_of self.now.parts) self.now.parts.clock sink node }
        ensures made { (ticks : ℕ) (answers rest : ℕ → List Answer) (node : ℕ)
            → EngineStands self.now.parts ticks answers
            → self.now.parts.cues.keeping ≡ true → IsOutput (setting_of self.now.parts) self.now.parts.clock sink node
            → result.now ≡ map mark_of (cues (with_rest (setting_of self.now.parts) answers rest) node ticks) }
        ensures stopped { (ticks : ℕ) (answers rest : ℕ → List Answer) (made : List Call) (node : ℕ)
            → EngineStopped self.now.parts ticks answers made
            → self.now.parts.cues.keeping ≡ true → IsOutput (setting_of self.now.parts) self.now.parts.clock sink node
            → result.now ≡ map mark_of (cues (with_rest (setting_of self.now.parts) answers rest) node ticks) }
        ensures none { self.now.parts.cues.keeping ≡ false → result.now ≡ [] }
    {
        if !self.parts.cues.keeping {
            return &[];
        }
        for k in 0..self.parts.ports.len() {
            if self.parts.ports[k].sink == sink {
                return whole_marks(&self.parts.cues.lists[k], self.parts.stopped);
            }
        }
        &[]
    }

    /// Takes the engine apart and gives back the sinks of its outputs, in sink order.
    pub fn into_outs(self) -> Vec<O>
        ensures { result.items ≡ self.entry.outs }
    {
        let ClockEngine { parts, outs } = self;
        drop(parts);
        outs
    }
}

impl<'a, O> ClockEngine<'a, O> {
    /// The number of its main clock.
    pub fn clock(&self) -> u32
        ensures { result ≡ self.now.parts.clock }
    {
        self.parts.clock
    }

    /// The fault that stopped the engine; `None` if none did.
    pub fn stopped(&self) -> Option<TickFault>
        ensures { result ≡ self.now.parts.stopped }
    {
        self.parts.stopped
    }

    /// How many ticks were made. A tick that stopped the engine is not among them.
    pub fn ticks(&self) -> u64
        ensures { result ≡ self.now.parts.ticks }
    {
        self.parts.ticks
    }

    /// How many cells more the reader that is this node wants at the next tick; `None` if the node is no reader or not
    /// one of the main clock. No clause says it: a caller may go by it, and the answers of the takes show whether it
    /// was so.
    pub fn missing(&self, node: u32) -> Option<u64> {
        let of = *self.parts.scene.clocks.get(node as usize)?;
        if !is_main(of, self.parts.clock) {
            return None;
        }
        match self.parts.state.clocks.states.get(node as usize)? {
            NodeState::Read(state) => Some(state.missing()),
            _ => None,
        }
    }

    /// How many segments were made: an instant of the clock each, and after it a stretch of instants that were made at
    /// once, as they go on as it did.
    pub fn segments(&self) -> u64
        ensures { result ≡ self.now.parts.state.segments }
    {
        self.parts.state.segments
    }
}
