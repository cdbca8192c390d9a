// Marks that are kept as runs of one title.
ghost use Rattle.std.specs.Prelude.{◌≡◌, ◌<◌, ◌≤◌, ◌+◌, ◌++◌, length, slice_get, vec_capacity, Some};
ghost use Rattle.frame_core.specs.MarkRuns.{AreTight, joins, mark_at, marks_in, run_marks};
ghost use Rattle.liq_base.specs.declared.limits.TheConstants.{MAX_FRAME};

use crate::{CellMark, MarkRun};
use liq_base::limits::MAX_FRAME;

/// The mark at place `at` of all those in these runs, counted from 0; `None` if there are fewer. A mark says whether
/// a track begins at a cell, and its title.
pub fn mark_at(runs: &[MarkRun], at: u32) -> Option<CellMark>
    ensures { result ≡ slice_get (marks_in runs.now) at }
{
    let mut skip = at;
    for index in 0..runs.len() {
        let run = run_at(runs, index);
        if skip < run.count {
            return Some(mark_of(run, skip));
        }
        skip -= run.count;
    }
    None
}

// The mark at place `at` of a run, counted from 0: only the one at place 0 may begin a track.
fn mark_of(run: MarkRun, at: u32) -> CellMark
    ensures { result ≡ mark_at run at }
{
    CellMark {
        first: run.first && at == 0,
        title: run.title,
    }
}

// The run of marks at place `at` in this list, counted from 0.
fn run_at(runs: &[MarkRun], at: usize) -> MarkRun
    requires { at < length runs.now }
    ensures { slice_get runs.now at ≡ Some result }
{
    runs[at]
}

// Whether a run of marks goes on with the run `last` before it, so that both could be one: it begins no track and has
// the same title.
fn joins(last: MarkRun, run: MarkRun) -> bool
    ensures { result ≡ joins last run }
{
    !run.first && last.title == run.title
}

// Appends a run of marks, or lengthens the last one if the run goes on with it. A run without marks is dropped.
pub(crate) fn put_run(runs: &mut Vec<MarkRun>, run: MarkRun)
    requires tight { AreTight runs.old.items }
    requires room { length (marks_in runs.old.items) + run.count ≤ vec_capacity runs.old }
    requires few { length (marks_in runs.old.items) + run.count ≤ MAX_FRAME }
    ensures marks { marks_in runs.new.items ≡ marks_in runs.old.items ++ run_marks run.first run.title run.count }
    ensures tight { AreTight runs.new.items }
    ensures room { vec_capacity runs.new ≡ vec_capacity runs.old }
{
    if run.count == 0 {
        return;
    }
    let Some(last) = runs.pop() else {
        runs.push_reserved(run);
        return;
    };
    if joins(last, run) {
        runs.push_reserved(MarkRun {
            first: last.first,
            title: last.title,
            count: last.count + run.count,
        });
    } else {
        runs.push_reserved(last);
        runs.push_reserved(run);
    }
}
