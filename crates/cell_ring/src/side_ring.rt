// A ring of the samples of one side, of which silence takes no room.
ghost use Rattle.std.specs.Prelude.{◌≡◌, ◌+◌, ◌≤◌, ◌++◌, [], pos, length, replicate, take, drop, slice_get, IfOk};
ghost use Rattle.circular_buffer.specs.Buffer.{buffer};

use circular_buffer::HeapCircularBuffer;
use liq_base::Memory;
use sample_kernels::are_silent;
use std::alloc::Global;
use std::marker::Model;

/// A queue of samples, which is reserved when it is made. While all of them are 0 they are only counted, so that the
/// room is not touched.
#[derive(Drop)]
pub struct SideRing {
    zeros: usize,
    held: HeapCircularBuffer<i16>,
}

impl Model for SideRing {
    ghost use Rattle.std.specs.Prelude.{◌≡◌, ◌+◌, ◌≤◌, ◌<◌, ◌++◌, ℤ, [], pos, length, replicate};
    ghost use Rattle.circular_buffer.specs.Buffer.{Buffer, buffer};

    ghost Value = { Buffer ℤ };

    ghost view = { λ r. buffer (replicate r.zeros (pos 0) ++ r.held.items) r.held.capacity };

    ghost invariant = { λ r. (0 < r.zeros → r.held.items ≡ []) × (r.zeros + length r.held.items ≤ r.held.capacity) };
}

impl SideRing {
    /// An empty queue of one side's samples, with room for `room` of them.
    pub fn new(alloc: Global, room: usize) -> Result<SideRing, Memory>
        ensures { IfOk result (λ ring. ring ≡ buffer [] room) }
    {
        let held = HeapCircularBuffer::with_capacity(alloc, room)?;
        Ok(SideRing { zeros: 0, held })
    }

    /// The sample at the front, which goes first; `None` if there is none.
    pub fn front(&self) -> Option<i16>
        ensures { result ≡ slice_get self.now.items 0 }
    {
        if self.zeros > 0 {
            return Some(0);
        }
        self.held.front().copied()
    }

    /// Appends samples at the back, for which there has to be room; silence is only counted as long as nothing else
    /// is held.
    pub fn push_all(&mut self, samples: &[i16])
        requires { length self.old.items + length samples.now ≤ self.old.capacity }
        ensures { self.new ≡ buffer (self.old.items ++ samples.now) self.old.capacity }
    {
        if self.held.len() == 0 && are_silent(samples) {
            self.zeros += samples.len();
            return;
        }
        hold(&mut self.held, self.zeros);
        self.zeros = 0;
        self.held.extend_from_slice(samples);
    }

    /// Drops the sample at the front, if there is one: a counted 0, or one that is held.
    pub fn pop(&mut self)
        ensures { self.new ≡ buffer (drop 1 self.old.items) self.old.capacity }
    {
        if self.zeros > 0 {
            self.zeros -= 1;
        } else {
            self.held.pop_front();
        }
    }

    /// Takes the samples at the front, as many as the slice is long, and writes them into it. As long as silence is
    /// counted no other sample is held, so all come from one of the two.
    pub fn take_into(&mut self, into: &mut [i16])
        requires { length into.old ≤ length self.old.items }
        ensures read { into.new ≡ take (length into.old) self.old.items }
        ensures rest { self.new ≡ buffer (drop (length into.old) self.old.items) self.old.capacity }
    {
        if self.zeros > 0 {
            into.fill(0);
            self.zeros -= into.len();
        } else {
            self.held.read_into(into);
        }
    }
}

// Appends `zeros` samples of 0 to a ring: silence that was only counted is held once a sound follows.
fn hold(held: &mut HeapCircularBuffer<i16>, zeros: usize)
    requires { length held.old.items + zeros ≤ held.old.capacity }
    ensures { held.new ≡ buffer (held.old.items ++ replicate zeros (pos 0)) held.old.capacity }
{
    for _ in 0..zeros {
        held.push_back(0);
    }
}
