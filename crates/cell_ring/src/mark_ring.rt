// A ring of marks, which are kept as runs of one title.
ghost use Rattle.std.specs.Prelude.{◌≡◌, ◌+◌, ◌<◌, ◌≤◌, ◌^◌, [], ◌∷◌, ◌++◌, ℕ, true, false, length, drop, slice_get};
ghost use Rattle.std.specs.Prelude.{Some, IfOk};
ghost use Rattle.circular_buffer.specs.Buffer.{Buffer, buffer};
ghost use Rattle.cell_ring.specs.Lanes.{begins_none, has_name};
ghost use Rattle.frame_core.specs.MarkRuns.{joins, mark_at, marks_in, run_marks};
ghost use Rattle.cell_ring.specs.MarkRuns.{AreSome, Walked, mark_of, passing, rest_run};

use circular_buffer::HeapCircularBuffer;
use frame_core::{CellMark, MarkRun};
use liq_base::Memory;
use std::alloc::Global;
use std::marker::Model;

// What a walk over marks found: how many pass, whether a mark that does not pass ended the walk, and if not, how many
// marks behind these runs are still to be skipped.
#[derive(Clone, Copy, Debug)]
pub struct Found {
    pub count: u32,
    pub skip: u32,
    pub ended: bool,
}

/// A queue of marks, which is reserved when it is made. Contracts see the marks, one for each cell.
#[derive(Drop)]
pub struct MarkRing {
    runs: HeapCircularBuffer<MarkRun>,
}

impl Model for MarkRing {
    ghost use Rattle.std.specs.Prelude.{◌<◌, ◌≤◌, ◌^◌, length};
    ghost use Rattle.circular_buffer.specs.Buffer.{Buffer, buffer};
    ghost use Rattle.frame_core.specs.declared.cell.CellMark.{CellMark};
    ghost use Rattle.frame_core.specs.MarkRuns.{marks_in};
    ghost use Rattle.cell_ring.specs.MarkRuns.{AreSome};

    ghost Value = { Buffer CellMark };

    ghost view = { λ r. buffer (marks_in r.runs.items) r.runs.capacity };

    ghost invariant = { λ r. AreSome r.runs.items × (length (marks_in r.runs.items) ≤ r.runs.capacity)
        × (r.runs.capacity < 2 ^ 32) };
}

impl MarkRing {
    /// An empty queue of marks, with room for `room` of them. A mark says whether a track begins at a cell, and its
    /// title.
    pub fn new(alloc: Global, room: u32) -> Result<MarkRing, Memory>
        ensures { IfOk result (λ marks. marks ≡ buffer [] room) }
    {
        let runs = HeapCircularBuffer::with_capacity(alloc, room as usize)?;
        Ok(MarkRing { runs })
    }

    /// The mark at the front, which goes first; `None` if there is none.
    pub fn front(&self) -> Option<CellMark>
        ensures { result ≡ slice_get self.now.items 0 }
    {
        first_mark(self.runs.front().copied())
    }

    /// How many marks from mark `from` on, at most `most`, have this title and begin no track, up to the first that
    /// does not.
    pub fn inner(&self, title: u32, from: u32, most: u32) -> u32
        ensures inner { (j : ℕ) → j < result → begins_none title (slice_get self.now.items (from + j)) ≡ true }
        ensures ends { result < most → begins_none title (slice_get self.now.items (from + result)) ≡ false }
        ensures within { result ≤ most }
    {
        walk_both(false, title, &self.runs, from, most)
    }

    /// How many marks from mark `from` on, at most `most`, have this title, up to the first that has not.
    pub fn titled(&self, title: u32, from: u32, most: u32) -> u32
        ensures titled { (j : ℕ) → j < result → has_name title (slice_get self.now.items (from + j)) ≡ true }
        ensures ends { result < most → has_name title (slice_get self.now.items (from + result)) ≡ false }
        ensures within { result ≤ most }
    {
        walk_both(true, title, &self.runs, from, most)
    }

    /// Appends the marks of `count` cells in a row with this title, the first of which may begin a track.
    pub fn push(&mut self, first: bool, title: u32, count: u32)
        requires { length self.old.items + count ≤ self.old.capacity }
        ensures { self.new ≡ buffer (self.old.items ++ run_marks first title count) self.old.capacity }
    {
        push_run(
            &mut self.runs,
            MarkRun {
                first,
                title,
                count,
            },
        );
    }

    /// Appends the marks that these runs stand for, without the first `skip` of them.
    pub fn push_all(&mut self, runs: &[MarkRun], skip: u32)
        requires { length self.old.items + length (drop skip (marks_in runs.now)) ≤ self.old.capacity }
        ensures { self.new ≡ buffer (self.old.items ++ drop skip (marks_in runs.now)) self.old.capacity }
    {
        push_each(&mut self.runs, runs, skip);
    }

    /// Drops the first `count` marks.
    pub fn drop_front(&mut self, count: u32)
        ensures { self.new ≡ buffer (drop count self.old.items) self.old.capacity }
    {
        drop_marks(&mut self.runs, count);
    }
}

// The first mark of a run of marks with one title; `None` without a run.
fn first_mark(run: Option<MarkRun>) -> Option<CellMark>
    ensures { result ≡ mark_of run }
{
    let run = run?;
    Some(CellMark {
        first: run.first,
        title: run.title,
    })
}

// Whether a run of marks goes on with the run `last` before it, so that both could be one: it begins no track and has
// the same title.
fn joins(last: MarkRun, run: MarkRun) -> bool
    ensures { result ≡ joins last run }
{
    !run.first && last.title == run.title
}

// Appends a run of marks, or lengthens the last one if the run goes on with it. A run without marks is dropped.
fn push_run(runs: &mut HeapCircularBuffer<MarkRun>, run: MarkRun)
    requires some { AreSome runs.old.items }
    requires there { length (marks_in runs.old.items) + run.count ≤ runs.old.capacity }
    requires room { runs.old.capacity < 2 ^ 32 }
    ensures marks { marks_in runs.new.items ≡ marks_in runs.old.items ++ run_marks run.first run.title run.count }
    ensures some { AreSome runs.new.items }
    ensures room { runs.new.capacity ≡ runs.old.capacity }
{
    if run.count == 0 {
        return;
    }
    let Some(last) = runs.back().copied() else {
        runs.push_back(run);
        return;
    };
    if joins(last, run) {
        runs.pop_back();
        runs.push_back(MarkRun {
            first: last.first,
            title: last.title,
            count: last.count + run.count,
        });
    } else {
        runs.push_back(run);
    }
}

// Appends runs of marks, one after another, without their first `skip` marks.
fn push_each(runs: &mut HeapCircularBuffer<MarkRun>, more: &[MarkRun], skip: u32)
    requires some { AreSome runs.old.items }
    requires there { length (marks_in runs.old.items) + length (drop skip (marks_in more.now)) ≤ runs.old.capacity }
    requires room { runs.old.capacity < 2 ^ 32 }
    ensures marks { marks_in runs.new.items ≡ marks_in runs.old.items ++ drop skip (marks_in more.now) }
    ensures some { AreSome runs.new.items }
    ensures room { runs.new.capacity ≡ runs.old.capacity }
{
    let mut left = skip;
    for at in 0..more.len() {
        let run = run_at(more, at);
        if left >= run.count {
            left -= run.count;
            continue;
        }
        push_run(runs, rest_of(run, left));
        left = 0;
    }
}

// A run of marks without its first `skip` ones; what is left begins no track if any was skipped.
fn rest_of(run: MarkRun, skip: u32) -> MarkRun
    requires { skip ≤ run.count }
    ensures { result ≡ rest_run run skip }
{
    MarkRun {
        first: run.first && skip == 0,
        title: run.title,
        count: run.count - skip,
    }
}

// Drops the first `count` marks of these runs. A run of which some are left goes back to the front, and begins no
// track any more.
fn drop_marks(runs: &mut HeapCircularBuffer<MarkRun>, count: u32)
    requires some { AreSome runs.old.items }
    requires there { length (marks_in runs.old.items) ≤ runs.old.capacity }
    ensures marks { marks_in runs.new.items ≡ drop count (marks_in runs.old.items) }
    ensures some { AreSome runs.new.items }
    ensures room { runs.new.capacity ≡ runs.old.capacity }
{
    let mut left = count;
    while left > 0 {
        let Some(run) = runs.pop_front() else {
            return;
        };
        if run.count > left {
            runs.push_front(MarkRun {
                first: false,
                title: run.title,
                count: run.count - left,
            });
            return;
        }
        left -= run.count;
    }
}

// Counts the marks of a ring from mark `from` on, at most `most`, that have this title and begin no track, up to the
// first that does not pass; with `begins` they may begin one. The ring stands in two slices, which are walked in
// turn.
fn walk_both(
    begins: bool,
    title: u32,
    runs: &HeapCircularBuffer<MarkRun>,
    from: u32,
    most: u32,
) -> u32
    ensures pass { (j : ℕ) → j < result → passing begins title (slice_get (marks_in runs.now.items) (from + j)) ≡ true }
    ensures ends { result < most → passing begins title (slice_get (marks_in runs.now.items) (from + result)) ≡ false }
    ensures within { result ≤ most }
{
    let (front, back) = runs.as_slices();
    let first = walk_runs(begins, title, front, from, most);
    if first.ended {
        return first.count;
    }
    let next = walk_runs(begins, title, back, first.skip, most - first.count);
    first.count + next.count
}

// Counts the marks of these runs from mark `from` on, at most `most`, that have this title and begin no track; with
// `begins` they may begin one. `ended`: the count was full, or a mark did not pass. If not, `skip` is how many of the
// `from` marks lie behind these runs.
pub(crate) fn walk_runs(begins: bool, title: u32, runs: &[MarkRun], from: u32, most: u32) -> Found
    ensures { Walked begins title (marks_in runs.now) from most result }
{
    let mut at = 0;
    let mut skip = from;
    let mut count = 0;
    while at < runs.len() {
        let run = run_at(runs, at);
        if skip >= run.count {
            skip -= run.count;
            at += 1;
            continue;
        }
        if !passes(begins, title, run, skip) {
            return Found {
                count,
                skip: 0,
                ended: true,
            };
        }
        let more = run.count - skip;
        if more >= most - count {
            return Found {
                count: most,
                skip: 0,
                ended: true,
            };
        }
        count += more;
        skip = 0;
        at += 1;
    }
    Found {
        count,
        skip,
        ended: false,
    }
}

// The run of marks at place `at` in this list, counted from 0.
fn run_at(runs: &[MarkRun], at: usize) -> MarkRun
    requires { at < length runs.now }
    ensures { slice_get runs.now at ≡ Some result }
{
    runs[at]
}

// Whether the mark at place `at` of a run is counted: it has this title and begins no track, or with `begins` may
// begin one. The mark at place 0 alone may begin a track.
fn passes(begins: bool, title: u32, run: MarkRun, at: u32) -> bool
    ensures { result ≡ passing begins title (Some (mark_at run at)) }
{
    run.title == title && (begins || !(run.first && at == 0))
}
