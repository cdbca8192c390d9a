// The cells of one tick while they are made.
ghost use Rattle.std.specs.Prelude.{◌≡◌, ◌↔◌, ◌≤◌, ◌+◌, ◌++◌, [], true, length, vec_capacity, vec_len, IfOk};
ghost use Rattle.frame_core.specs.Chunks.{cells_in};
ghost use Rattle.frame_core.specs.MarkRuns.{marks_in, run_marks};
ghost use Rattle.liq_base.specs.declared.limits.TheConstants.{MAX_FRAME};

use crate::MarkRun;
use crate::runs::put_run;
use liq_base::Memory;
use liq_base::limits::MAX_FRAME;
use std::alloc::Global;
use std::marker::Model;

/// The cells of one tick as they are made, in order, with room for at most 65536. Contracts see both. Samples are kept
/// apart from marks, and of these runs of one title. No call but the first takes memory.
#[derive(Debug, Drop)]
pub struct Frame {
    left: Vec<i16>,
    right: Vec<i16>,
    runs: Vec<MarkRun>,
    room: u32,
}

impl Model for Frame {
    ghost use Rattle.std.specs.Prelude.{◌≡◌, ◌≤◌, length, vec_capacity};
    ghost use Rattle.frame_core.specs.Chunks.{cells_in};
    ghost use Rattle.frame_core.specs.Frames.{Laid};
    ghost use Rattle.frame_core.specs.MarkRuns.{AreTight, marks_in};
    ghost use Rattle.liq_base.specs.declared.limits.TheConstants.{MAX_FRAME};

    ghost Value = { Laid };

    ghost view = { λ f. record { cells = cells_in f.left.items f.right.items (marks_in f.runs.items); room = f.room } };

    ghost invariant = { λ f. (length f.left.items ≡ length (marks_in f.runs.items))
        × (length f.right.items ≡ length (marks_in f.runs.items))
        × AreTight f.runs.items
        × (length (marks_in f.runs.items) ≤ f.room) × (f.room ≤ MAX_FRAME)
        × (f.room ≤ vec_capacity f.left) × (f.room ≤ vec_capacity f.right) × (f.room ≤ vec_capacity f.runs) };
}

impl Frame {
    /// A frame (the cells of one tick in the making) without a cell, with room for `room` of them, at most 65536.
    pub fn new(alloc: Global, room: u32) -> Result<Frame, Memory>
        requires { room ≤ MAX_FRAME }
        ensures none { IfOk result (λ frame. frame ≡ record { cells = []; room = room }) }
    {
        let left = Vec::with_capacity(alloc, room as usize)?;
        let right = Vec::with_capacity(alloc, room as usize)?;
        let runs = Vec::with_capacity(alloc, room as usize)?;
        Ok(Frame {
            left,
            right,
            runs,
            room,
        })
    }

    // The cells of the frame as lists side by side: the runs of their marks, their left samples and their right
    // samples.
    pub(crate) fn lanes(&self) -> (&[MarkRun], &[i16], &[i16])
        ensures cells { cells_in result.1.now result.2.now (marks_in result.0.now) ≡ self.now.cells }
        ensures left { length result.1.now ≡ length (marks_in result.0.now) }
        ensures right { length result.2.now ≡ length (marks_in result.0.now) }
        ensures most { length (marks_in result.0.now) ≤ MAX_FRAME }
    {
        (&self.runs, &self.left, &self.right)
    }

    /// Whether another frame has the same cells, in samples, titles and where tracks begin.
    pub fn is_same(&self, other: &Frame) -> bool
        ensures { (result ≡ true) ↔ (self.now.cells ≡ other.now.cells) }
    {
        are_runs(&self.runs, &other.runs)
            && are_samples(&self.left, &other.left)
            && are_samples(&self.right, &other.right)
    }

    /// Drops all cells of the frame, for the next tick; the room stays.
    pub fn clear(&mut self)
        ensures { self.new ≡ record { cells = []; room = self.old.room } }
    {
        self.left.clear();
        self.right.clear();
        self.runs.clear();
    }

    /// Appends a cell for each of these samples, with this title. `first` says whether the first of them begins a
    /// track; the others do not.
    pub fn lay(&mut self, left: &[i16], right: &[i16], first: bool, title: u32)
        requires same { length right.now ≡ length left.now }
        requires room { length self.old.cells + length left.now ≤ self.old.room }
        ensures { self.new ≡ record {
          cells = self.old.cells ++ cells_in left.now right.now (run_marks first title (length left.now));
          room = self.old.room;
        } }
    {
        put_run(
            &mut self.runs,
            MarkRun {
                first,
                title,
                count: left.len() as u32,
            },
        );
        put_samples(&mut self.left, left);
        put_samples(&mut self.right, right);
    }
}

// Whether two lists of runs of marks are equal.
fn are_runs(one: &[MarkRun], other: &[MarkRun]) -> bool
    ensures { (result ≡ true) ↔ (one.now ≡ other.now) }
{
    one == other
}

// Whether two lists of samples of one side are equal.
fn are_samples(one: &[i16], other: &[i16]) -> bool
    ensures { (result ≡ true) ↔ (one.now ≡ other.now) }
{
    one == other
}

// Appends samples of one side to a list that has room for them. So no memory is taken, and none can be refused.
fn put_samples(into: &mut Vec<i16>, samples: &[i16])
    requires { vec_len into.old + length samples.now ≤ vec_capacity into.old }
    ensures items { into.new.items ≡ into.old.items ++ samples.now }
    ensures room { vec_capacity into.old ≤ vec_capacity into.new }
{
    match into.extend_from_slice(samples) {
        Ok(()) => {}
        Err(_) => unreachable!(),
    }
}
