// The queue and its two ends.
ghost use Rattle.std.specs.Prelude.{◌≡◌, ℕ, ◌<◌, [], map, true, IfOk, IfErr, OnErr, IsOk};
ghost use Rattle.crossbeam_queue.specs.Passes.{view, IsPassOf, ruled_capacity};
ghost use Rattle.buffer_queue.specs.Rule.{putter, taker, both, newcomer, contents_of, Whole};
ghost use Rattle.buffer_queue.specs.Window.{opened, capacity_of, is_chunk, Puts, Takes, Closes};

use crate::rule::{Both, Ends, Next, PutStep, Ruled, Size, Spare, TakeStep, View, WholeWindow};
use crossbeam_queue::Pass;
use frame_core::{Chunk, Gave};
use liq_base::Memory;
use std::alloc::{AllocError, Global};
use std::marker::{Brand, Model};
use std::mem;
use std::sync::Wait;

// An empty queue of at most `capacity` chunks, with a pass for each of its two ends, the one that puts first: the right
// to use that end. `K` is the capacity as a type, for proofs.
fn opened_at<K: Size>(
    alloc: Global,
    capacity: u32,
) -> Result<(Ruled, Pass<Chunk, View>, Pass<Chunk, View>), AllocError>
    requires above { 0 < capacity }
    requires picked { K.capacity ≡ capacity }
    ensures queue { IfOk result (λ r. (ruled_capacity r.0 ≡ capacity) × IsPassOf r.0 r.1 × IsPassOf r.0 r.2) }
    ensures views { IfOk result (λ r. (view r.1 ≡ putter capacity newcomer) × (view r.2 ≡ taker capacity newcomer)) }
{
    let (queue, mut put) = Ruled::ruled(alloc, capacity as usize)?;
    let take = queue.another::<Ends<K>>(&mut put);
    Ok((queue, put, take))
}

// Ends one window of a queue's use and opens the next with what the queue holds. It joins the passes of the two ends,
// learns that their puts and takes were one order, and cuts them anew. An idle pass stands in for `take` meanwhile. No
// chunk moves.
fn turn(queue: &Ruled, put: &mut Pass<Chunk, View>, take: &mut Pass<Chunk, View>)
    requires queue { IsPassOf queue.now put.old × IsPassOf queue.now take.old }
    requires roles { ((view put.old).puts ≡ true) × ((view take.old).takes ≡ true) }
    ensures queue { IsPassOf queue.now put.new × IsPassOf queue.now take.new }
    ensures views { let v = both (view put.old) (view take.old) in
        (view put.new ≡ putter v.capacity v) × (view take.new ≡ taker v.capacity v) }
    ensures whole { Whole (both (view put.old) (view take.old)) (contents_of (both (view put.old) (view take.old))) }
{
    let spare = queue.another::<Spare>(put);
    let other = mem::replace(take, spare);
    queue.absorb::<Both>(put, other);
    queue.learn_as::<WholeWindow>(put);
    *take = queue.another::<Next>(put);
}

/// A queue with room for a number of chunks, its capacity, which two threads share. Contracts see which queue it is,
/// and that tells its capacity.
#[derive(Drop)]
pub struct BufferQueue {
    queue: Ruled,
}

impl Model for BufferQueue {
    ghost use Rattle.atomic_table.specs.Seated.{TableId, table_id_coded};

    ghost Value = { TableId };

    ghost coded = { table_id_coded };

    ghost view = { λ q. q.queue.table.shared.table_id };
}

/// The end that puts, with its answers in the open window. Contracts see that window.
#[derive(Drop)]
pub struct PutPass {
    pass: Pass<Chunk, View>,
    answers: Vec<bool>,
}

impl Model for PutPass {
    ghost use Rattle.std.specs.Prelude.{◌≡◌, [], true, false, length};
    ghost use Rattle.crossbeam_queue.specs.Passes.{view as view_of};
    ghost use Rattle.frame_core.specs.Order.{Fits, last_or, answers_of};
    ghost use Rattle.buffer_queue.specs.Window.{Window, window_coded};

    ghost Value = { Window };

    ghost coded = { window_coded };

    ghost view = { λ p. record {
      queue = p.pass.table_id;
      opening = (view_of p.pass).opening;
      left = last_or (length (view_of p.pass).opening) (view_of p.pass).put;
      answers = answers_of p.answers.items (view_of p.pass).put;
    } };

    ghost invariant = { λ p. (p.pass.me.1 ≡ []) × ((view_of p.pass).puts ≡ true) × ((view_of p.pass).takes ≡ false)
        × ((view_of p.pass).capacity ≡ p.pass.table_id.slots)
        × Fits p.pass.table_id.slots (length (view_of p.pass).opening) p.answers.items (view_of p.pass).put };
}

/// The end that takes, with its answers in the open window. Contracts see that window.
#[derive(Drop)]
pub struct TakePass {
    pass: Pass<Chunk, View>,
    answers: Vec<bool>,
}

impl Model for TakePass {
    ghost use Rattle.std.specs.Prelude.{◌≡◌, [], true, false, length};
    ghost use Rattle.crossbeam_queue.specs.Passes.{view as view_of};
    ghost use Rattle.frame_core.specs.Order.{Fits, last_or, answers_of};
    ghost use Rattle.buffer_queue.specs.Window.{Window, window_coded};

    ghost Value = { Window };

    ghost coded = { window_coded };

    ghost view = { λ p. record {
      queue = p.pass.table_id;
      opening = (view_of p.pass).since;
      left = last_or (length (view_of p.pass).since) (view_of p.pass).got;
      answers = answers_of p.answers.items (view_of p.pass).got;
    } };

    ghost invariant = { λ p. (p.pass.me.1 ≡ []) × ((view_of p.pass).takes ≡ true) × ((view_of p.pass).puts ≡ false)
        × ((view_of p.pass).capacity ≡ p.pass.table_id.slots)
        × Fits 0 (length (view_of p.pass).since) p.answers.items (view_of p.pass).got };
}

impl PutPass {
    /// The answers in the open window: true for an accepted chunk, false where the queue was full.
    pub fn answers(&self) -> &[bool]
        ensures { result.now ≡ map is_chunk self.now.answers }
    {
        self.answers.as_slice()
    }
}

impl TakePass {
    /// The answers in the open window: true for a chunk, false where the queue was empty.
    pub fn answers(&self) -> &[bool]
        ensures { result.now ≡ map is_chunk self.now.answers }
    {
        self.answers.as_slice()
    }
}

impl BufferQueue {
    /// An empty queue of at most `capacity` chunks, with its two ends: the pass that puts, and the one that takes.
    /// Their first window is open.
    pub fn new(alloc: Global, capacity: u32) -> Result<(BufferQueue, PutPass, TakePass), Memory>
        requires { 0 < capacity }
        ensures capacity { IfOk result (λ r. capacity_of r.0 ≡ capacity) }
        ensures put { IfOk result (λ r. r.1 ≡ opened r.0 []) }
        ensures take { IfOk result (λ r. r.2 ≡ opened r.0 []) }
    {
        let (queue, put, take) = opened_at::<Brand>(alloc, capacity)?;
        let put = PutPass {
            pass: put,
            answers: Vec::new(alloc),
        };
        let take = TakePass {
            pass: take,
            answers: Vec::new(alloc),
        };
        Ok((BufferQueue { queue }, put, take))
    }

    /// Puts a chunk at the back, with the end `pass`, which notes whether it was accepted. Where the queue is full, the
    /// chunk comes back in `Full`. Where memory for the note is refused, it comes back in the `Err`, and nothing was
    /// done. May wait for the other end's step.
    pub fn put<R: Wait>(
        &self,
        rt: &R,
        pass: &mut PutPass,
        chunk: Chunk,
    ) -> Result<Gave, (Chunk, Memory)>
        requires { pass.old.queue ≡ self.now }
        ensures same { (pass.new.queue ≡ pass.old.queue) × (pass.new.opening ≡ pass.old.opening) }
        ensures answer { IfOk result (Puts pass.old chunk pass.new) }
        ensures memory { IfErr result (λ e. (e.0 ≡ chunk) × (pass.new ≡ pass.old)) }
    {
        if pass.answers.reserve(1).is_err() {
            return Err((chunk, Memory));
        }
        match self.queue.push_as::<PutStep, R>(rt, &mut pass.pass, chunk) {
            Ok(()) => {
                pass.answers.push_reserved(true);
                Ok(Gave::Accepted)
            }
            Err(chunk) => {
                pass.answers.push_reserved(false);
                Ok(Gave::Full(chunk))
            }
        }
    }

    /// Takes the chunk at the front, with the end `pass`, which notes whether there was one; `None` where the queue is
    /// empty. Where memory for the note is refused, nothing was done. May wait for the other end's step.
    pub fn take<R: Wait>(&self, rt: &R, pass: &mut TakePass) -> Result<Option<Chunk>, Memory>
        requires { pass.old.queue ≡ self.now }
        ensures same { (pass.new.queue ≡ pass.old.queue) × (pass.new.opening ≡ pass.old.opening) }
        ensures answer { IfOk result (Takes pass.old pass.new) }
        ensures memory { OnErr result (pass.new ≡ pass.old) }
    {
        if pass.answers.reserve(1).is_err() {
            return Err(Memory);
        }
        match self.queue.pop_as::<TakeStep, R>(rt, &mut pass.pass) {
            Some(chunk) => {
                pass.answers.push_reserved(true);
                Ok(Some(chunk))
            }
            None => {
                pass.answers.push_reserved(false);
                Ok(None)
            }
        }
    }

    /// Ends the window and opens the next one with what the queue holds. Hands out the answers of the puts, true for
    /// accepted, and those of the takes, true for got. It neither waits nor takes memory, and the answer is always
    /// `Ok`.
    pub fn close_window(
        &self,
        alloc: Global,
        put: &mut PutPass,
        take: &mut TakePass,
    ) -> Result<(Vec<bool>, Vec<bool>), Memory>
        requires put { put.old.queue ≡ self.now }
        requires take { take.old.queue ≡ self.now }
        ensures closes { Closes put.old take.old self.now put.new take.new }
        ensures puts { IfOk result (λ r. r.0.items ≡ map is_chunk put.old.answers) }
        ensures takes { IfOk result (λ r. r.1.items ≡ map is_chunk take.old.answers) }
        ensures done { IsOk result }
    {
        turn(&self.queue, &mut put.pass, &mut take.pass);
        let puts = mem::replace(&mut put.answers, Vec::new(alloc));
        let takes = mem::replace(&mut take.answers, Vec::new(alloc));
        Ok((puts, takes))
    }
}
