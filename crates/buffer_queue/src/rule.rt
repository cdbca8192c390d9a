// What the passes of a queue know, in proofs alone, and the rule over it.
ghost use Rattle.std.specs.Prelude.{ℕ};

use crossbeam_queue::RuledArrayQueue;
use crossbeam_queue::protocol::{Join, Lesson, Outcome, Protocol, Split};
use frame_core::Chunk;
use std::collections::LinkedList;
use std::marker::{Brand, PhantomData};

/// What a pass knows: its roles, the capacity, and of each role the window's opening contents (`opening`, `since`) and
/// each chunk that it moved, with the number of chunks that this step left in the queue. No value of it is made.
pub struct View {
    pub capacity: u64,
    pub puts: bool,
    pub takes: bool,
    pub opening: LinkedList<Chunk>,
    pub put: LinkedList<(Chunk, u64)>,
    pub since: LinkedList<Chunk>,
    pub got: LinkedList<(Chunk, u64)>,
}

/// The rule of a queue: some order of the accepted puts and of the chunks got leads from the opening contents to the
/// contents.
pub struct OneOrder;

impl Protocol<Chunk, View> for OneOrder {
    ghost use Rattle.buffer_queue.specs.Rule.{Holds, newcomer};

    ghost holds = { Holds };

    ghost first = { newcomer };
}

/// The queue under this rule.
pub type Ruled = RuledArrayQueue<Chunk, View, OneOrder>;

/// How many chunks the queue takes. Each call of a program picks it.
pub trait Size {
    ghost capacity: { ℕ };
}

impl Size for Brand {
    ghost capacity = { 0 };
}

/// The first pass of a queue is cut into the passes of its two ends, which learn the capacity.
pub struct Ends<K> {
    of: PhantomData<K>,
}

impl<K: Size> Split<View> for Ends<K> {
    ghost use Rattle.buffer_queue.specs.Rule.{putter, taker};

    ghost left = { λ v. putter K.capacity v };

    ghost right = { λ v. taker K.capacity v };
}

/// A pass with both roles is cut into the passes of the two ends, which open the next window.
pub struct Next;

impl Split<View> for Next {
    ghost use Rattle.buffer_queue.specs.Rule.{putter, taker};

    ghost left = { λ v. putter v.capacity v };

    ghost right = { λ v. taker v.capacity v };
}

/// From a pass one is cut off that knows nothing.
pub struct Spare;

impl Split<View> for Spare {
    ghost use Rattle.buffer_queue.specs.Rule.{idle};

    ghost left = { λ v. v };

    ghost right = { λ v. idle };
}

/// The passes of the two ends are joined to one.
pub struct Both;

impl Join<View> for Both {
    ghost use Rattle.buffer_queue.specs.Rule.{both, idle};

    ghost both = { both };

    ghost spent = { idle };
}

/// What a put adds to what its pass knows, and what a full queue teaches it.
pub struct PutStep;

impl Outcome<Chunk, View> for PutStep {
    ghost use Rattle.buffer_queue.specs.Rule.{IsPut};

    ghost then = { IsPut };
}

impl Lesson<Chunk, View> for PutStep {
    ghost use Rattle.buffer_queue.specs.Rule.{Fills};

    ghost fact = { Fills };
}

/// What a take adds to what its pass knows, and what an empty queue teaches it.
pub struct TakeStep;

impl Outcome<Chunk, View> for TakeStep {
    ghost use Rattle.buffer_queue.specs.Rule.{IsGot};

    ghost then = { IsGot };
}

impl Lesson<Chunk, View> for TakeStep {
    ghost use Rattle.buffer_queue.specs.Rule.{Drains};

    ghost fact = { Drains };
}

/// The order of the whole window, which a pass with both roles may learn.
pub struct WholeWindow;

impl Lesson<Chunk, View> for WholeWindow {
    ghost use Rattle.buffer_queue.specs.Rule.{Whole};

    ghost fact = { Whole };
}
