// A buffer that answers as a trace tells.
ghost use Rattle.std.specs.Prelude.{◌≡◌, ◌<◌, ◌≤◌, ◌+◌, ◌&&◌, Some, slice_get, true, IfOk, IfErr, OnErr, length};
ghost use Rattle.trace_turns.specs.Answering.{BufferState, PutsOn, TakesOn, SameBuffer, begun, is_list};
ghost use Rattle.trace_turns.specs.Marks.{HasLetGo, IsWithin, mark_of, resumed};

use frame_core::Chunk;
use liq_base::Memory;
use std::collections::VecDeque;
use std::marker::Model;
use std::mem;

/// What a take meets.
#[derive(Drop)]
pub enum Taken {
    Chunk(Chunk),
    Empty,
    /// It is to get a chunk that is not there yet.
    Waits,
    /// It is to get a chunk that was let go.
    Lost,
    /// No answer can be right.
    Never,
}

/// What a put meets.
#[derive(Drop)]
pub enum Put {
    Accepted,
    Full(Chunk),
    /// No answer can be right.
    Never,
}

/// How far the calls of a clock came on a buffer: how many puts and takes, and how many of these got a chunk.
#[derive(Clone, Copy, Debug, PartialEq, Eq)]
pub struct Mark {
    pub put_at: usize,
    pub take_at: usize,
    pub got: usize,
}

/// The mark before the first call.
pub const NO_MARK: Mark = Mark {
    put_at: 0,
    take_at: 0,
    got: 0,
};

// How many takes are looked at before a tick, at most.
const LOOKS: u32 = 1024;

/// A buffer in the run of one clock, which answers as a trace tells. The chunks that were put to it stay until they are
/// let go.
#[derive(Drop)]
pub struct ToldBuffer {
    pub capacity: u32,
    /// The answers of its puts and of its takes, window after window.
    pub puts: Vec<bool>,
    pub takes: Vec<bool>,
    /// Whether the clock feeds it, and whether it reads it.
    pub fed: bool,
    pub read: bool,
    /// How many puts and takes came in this run, and how many of these got a chunk.
    pub put_at: usize,
    pub take_at: usize,
    pub got: usize,
    /// How many chunks were there when the run began.
    pub opened: usize,
    /// How many chunks were put, how many of the first ones were let go, and the others.
    pub put: usize,
    pub gone: usize,
    pub held: VecDeque<Chunk>,
    // What was put in the run before, of which each put frees one: so the memory of the one run serves the next.
    pub spare: VecDeque<Chunk>,
}

impl Model for ToldBuffer {
    ghost use Rattle.std.specs.Prelude.{◌≡◌, ◌≤◌, ◌+◌, ◌++◌, length};
    ghost use Rattle.trace_turns.specs.Answering.{BufferState, blanks, state_coded};

    ghost Value = { BufferState };

    ghost coded = { state_coded };

    ghost view = { λ b. record {
      capacity = b.capacity;
      puts = b.puts.items;
      takes = b.takes.items;
      fed = b.fed;
      read = b.read;
      put_at = b.put_at;
      take_at = b.take_at;
      got = b.got;
      opened = b.opened;
      chunks = blanks b.gone ++ b.held.items;
      gone = b.gone;
    } };

    ghost invariant = { λ b. (b.put_at ≤ length b.puts.items) × (b.take_at ≤ length b.takes.items) × (b.got ≤ b.put)
        × (b.opened ≤ b.put)
        × (b.put ≡ b.gone + length b.held.items) × (b.put ≡ length (blanks b.gone ++ b.held.items)) };
}

impl ToldBuffer {
    /// Sets the buffer to the start of a clock's run; the clock feeds it if `fed`, and reads it if `read`.
    /// A clock that feeds it puts all chunks anew, so the buffer is emptied; the chunks of another clock stay.
    /// The old chunks go to `spare`, from which each put frees one, so the memory of one run serves the next.
    pub fn begin(&mut self, fed: bool, read: bool)
        ensures { self.new ≡ begun self.old fed read }
    {
        self.fed = fed;
        self.read = read;
        self.put_at = 0;
        self.take_at = 0;
        self.got = 0;
        self.opened = 0;
        if fed {
            mem::swap(&mut self.held, &mut self.spare);
            self.held.clear();
            self.put = 0;
            self.gone = 0;
            return;
        }
        self.opened = self.put;
    }

    /// Drops all chunks, as before any run of a clock.
    pub fn forget(&mut self)
        ensures { self.new ≡ begun self.old true true }
    {
        self.begin(true, true);
        self.spare.clear();
    }

    /// Goes on with a run of a clock where it paused, at this mark. The clock feeds the buffer or not, and reads it or
    /// not; the chunks stay.
    pub fn resume(&mut self, fed: bool, read: bool, mark: Mark)
        requires { IsWithin self.old mark }
        ensures { self.new ≡ resumed self.old fed read mark }
    {
        self.fed = fed;
        self.read = read;
        self.put_at = mark.put_at;
        self.take_at = mark.take_at;
        self.got = mark.got;
        self.opened = 0;
        if !fed {
            self.opened = self.put;
        }
    }

    /// How far the calls of the run came on the buffer: how many puts and takes, and how many chunks were got.
    pub fn mark(&self) -> Mark
        ensures { result ≡ mark_of self.now }
    {
        Mark {
            put_at: self.put_at,
            take_at: self.take_at,
            got: self.got,
        }
    }

    /// Frees the chunks that were got, if the clock reads the buffer: no later take needs them.
    pub fn let_go(&mut self)
        ensures { HasLetGo self.old self.new }
    {
        if !self.read {
            return;
        }
        while self.gone < self.got {
            drop(self.held.pop_front());
            self.gone += 1;
        }
    }

    /// Foresees whether a clock that wants `cells` cells gets them from the chunks that are there, after this mark.
    /// `true` also where a take is told to find the buffer empty before, or where no more takes are told.
    /// `false` if a chunk is missing, or if one that is to be got was let go.
    pub fn serves(&self, mark: Mark, cells: u64) -> bool {
        if mark.got < self.gone {
            return false;
        }
        let mut left = cells;
        let mut next = mark.got - self.gone;
        for at in mark.take_at..self.takes.len() {
            if left == 0 || !self.takes[at] {
                return true;
            }
            if next >= self.held.len() {
                return false;
            }
            left = left.saturating_sub(u64::from(self.held[next].len()));
            next += 1;
        }
        true
    }

    /// Foresees whether the chunks that are there suffice for the takes after this mark: up to take number `end`, or
    /// until `reach` cells were got, where an empty take counts as `frame` cells.
    /// `false` if a chunk is missing or was let go; also if `LOOKS` takes do not decide, so that a look stays short.
    pub fn serves_far(&self, mark: Mark, end: usize, reach: u64, frame: u64) -> bool {
        if mark.got < self.gone {
            return false;
        }
        let mut left = reach;
        let mut next = mark.got - self.gone;
        let mut looks = LOOKS;
        for at in mark.take_at..self.takes.len() {
            if left == 0 || at >= end {
                return true;
            }
            if looks == 0 {
                return false;
            }
            looks -= 1;
            if !self.takes[at] {
                left = left.saturating_sub(frame);
                continue;
            }
            if next >= self.held.len() {
                return false;
            }
            left = left.saturating_sub(u64::from(self.held[next].len()));
            next += 1;
        }
        true
    }

    /// Whether the next take after this mark can be answered: its chunk is there, or it is told to find the buffer
    /// empty.
    pub fn serves_one(&self, mark: Mark) -> bool {
        if mark.take_at >= self.takes.len() || !self.takes[mark.take_at] {
            return true;
        }
        mark.got >= self.gone && mark.got < self.put
    }

    // Whether the clock both feeds and reads the buffer: then its answers must be those of a bounded list.
    fn is_list(&self) -> bool
        ensures { result ≡ is_list self.now }
    {
        self.fed && self.read
    }

    // How many of the chunks that were put to the buffer the clock has not got yet.
    fn left(&self) -> usize
        ensures { result + self.now.got ≡ length self.now.chunks }
    {
        self.put - self.got
    }

    /// Answers the next take as the trace tells: `Chunk`, or `Empty` if the trace tells of none.
    /// `Waits` if the chunk is not there yet, `Lost` if it was let go.
    /// `Never` if no take is left in the trace, or if the clock has both ends and the chunks held answer otherwise.
    pub fn take(&mut self) -> Result<Taken, Memory>
        ensures taken { IfOk result (λ taken. TakesOn self.old taken self.new) }
        ensures same { SameBuffer self.old self.new }
        ensures memory { OnErr result (self.new ≡ self.old) }
    {
        if self.take_at >= self.takes.len() {
            return Ok(Taken::Never);
        }
        if self.takes[self.take_at] {
            return self.take_chunk();
        }
        if self.is_list() && self.left() != 0 {
            return Ok(Taken::Never);
        }
        self.take_at += 1;
        Ok(Taken::Empty)
    }

    // Answers a take that is told to get a chunk: with the chunk, if it is there.
    // If none is left, it is `Never` where the clock itself feeds the buffer, and `Waits` where another clock may yet.
    fn take_chunk(&mut self) -> Result<Taken, Memory>
        requires gets { slice_get self.old.takes self.old.take_at ≡ Some true }
        ensures taken { IfOk result (λ taken. TakesOn self.old taken self.new) }
        ensures same { SameBuffer self.old self.new }
        ensures memory { OnErr result (self.new ≡ self.old) }
    {
        if self.left() == 0 {
            if self.is_list() {
                return Ok(Taken::Never);
            }
            return Ok(Taken::Waits);
        }
        if self.got < self.gone {
            return Ok(Taken::Lost);
        }
        let chunk = self.held[self.got - self.gone].share()?;
        self.take_at += 1;
        self.got += 1;
        Ok(Taken::Chunk(chunk))
    }

    /// Answers the next put as the trace tells: `Accepted`, or `Full` with the chunk.
    /// `Never` if no put is left in the trace, or if the clock has both ends and the chunks held answer otherwise.
    /// An `Err` is want of memory, and gives the chunk back.
    pub fn put(&mut self, chunk: Chunk) -> Result<Put, (Chunk, Memory)>
        ensures put { IfOk result (λ put. PutsOn self.old chunk put self.new) }
        ensures same { SameBuffer self.old self.new }
        ensures memory { IfErr result (λ e. (e.0 ≡ chunk) × (self.new ≡ self.old)) }
    {
        if self.put_at >= self.puts.len() {
            return Ok(Put::Never);
        }
        if self.puts[self.put_at] {
            return self.accept(chunk);
        }
        if self.is_list() && self.left() != self.capacity as usize {
            return Ok(Put::Never);
        }
        self.put_at += 1;
        Ok(Put::Full(chunk))
    }

    // Answers a put that is told to be accepted: the chunk is kept.
    // `Never` if the clock feeds and reads the buffer and it has no room. An `Err` gives the chunk back.
    fn accept(&mut self, chunk: Chunk) -> Result<Put, (Chunk, Memory)>
        requires accepts { slice_get self.old.puts self.old.put_at ≡ Some true }
        ensures put { IfOk result (λ put. PutsOn self.old chunk put self.new) }
        ensures same { SameBuffer self.old self.new }
        ensures memory { IfErr result (λ e. (e.0 ≡ chunk) × (self.new ≡ self.old)) }
    {
        if self.is_list() && self.left() >= self.capacity as usize {
            return Ok(Put::Never);
        }
        let Some(put) = self.put.checked_add(1) else {
            return Err((chunk, Memory));
        };
        drop(self.spare.pop_front());
        match self.held.push_back(chunk) {
            Ok(()) => {
                self.put = put;
                self.put_at += 1;
                Ok(Put::Accepted)
            }
            Err(failed) => Err((failed.value, Memory)),
        }
    }
}
