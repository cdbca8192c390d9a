// The cue files of a rendering.
ghost use Rattle.std.specs.Prelude.{◌≡◌, ◌++◌, ◌∷◌, [], true, IfOk, IsErrOf, OnOk, length, map, string_bytes};
ghost use Rattle.frame_core.specs.Library.{title_name};
ghost use Rattle.liq_base.specs.Counts.{Rose};
ghost use Rattle.stations.specs.Cues.{cue_line, cue_name, cue_names_if, cue_names_in, cue_text, spaced};
ghost use Rattle.station_render.specs.Shelves.{WroteFiles, WroteUpto};
ghost use Rattle.station_render.specs.Marks.{cue_file, cue_files_by, cue_files_with, cue_of, cues_of};
ghost use Rattle.station_render.specs.Renders.{written};

use crate::files::write_file;
use crate::{Job, RenderFault};
use clock_ticks::CueMark;
use frame_core::Library;
use liq_base::Shelf;
use plan_core::{Plan, SinkPlan};
use std::alloc::{AllocError, Global};

/// Writes the cue file of each output, in sink order, if a job wants these: the instants at which its tracks begin,
/// and their titles. `marks` has those of each output.
pub(crate) fn leave_wanted<S: Shelf>(
    alloc: Global,
    job: &Job<'_>,
    marks: &[Vec<CueMark>],
    shelf: &mut S,
) -> Result<(), RenderFault>
    requires many { job.now.cues ≡ true → length marks.now ≡ length (written job.now.plan.sinks) }
    ensures all { OnOk result
        (WroteFiles (S.told shelf.old) (S.told shelf.new) (cue_names_if job.now.cues job.now.plan.sinks)
        (cue_files_by job.now (cues_of marks.now))) }
    ensures some { WroteUpto (S.told shelf.old) (S.told shelf.new) (cue_names_if job.now.cues job.now.plan.sinks)
        (cue_files_by job.now (cues_of marks.now)) }
    ensures cause { IsErrOf result RenderFault.Write → Rose (S.told shelf.old).writes (S.told shelf.new).writes }
{
    if !job.cues {
        return Ok(());
    }
    leave_cues(alloc, &job.plan, &job.ready.library, marks, shelf)
}

// Writes the cue file of each output of a plan, in sink order. `marks` has the instants at which the tracks of each
// output begin, with their titles.
fn leave_cues<S: Shelf>(
    alloc: Global,
    plan: &Plan,
    library: &Library,
    marks: &[Vec<CueMark>],
    shelf: &mut S,
) -> Result<(), RenderFault>
    requires many { length marks.now ≡ length (written plan.now.sinks) }
    ensures all { OnOk result
        (WroteFiles (S.told shelf.old) (S.told shelf.new) (cue_names_in plan.now.sinks)
        (cue_files_with library.now plan.now.sinks (cues_of marks.now))) }
    ensures some { WroteUpto (S.told shelf.old) (S.told shelf.new) (cue_names_in plan.now.sinks)
        (cue_files_with library.now plan.now.sinks (cues_of marks.now)) }
    ensures cause { IsErrOf result RenderFault.Write → Rose (S.told shelf.old).writes (S.told shelf.new).writes }
{
    let mut place = 0;
    for sink in plan.sinks.as_slice() {
        let SinkPlan::Output { name, .. } = sink else {
            continue;
        };
        leave_one(alloc, library, name.as_str(), &marks[place], shelf)?;
        place += 1;
    }
    Ok(())
}

// Writes the cue file of the output of this name, with a line for each of these marks.
fn leave_one<S: Shelf>(
    alloc: Global,
    library: &Library,
    name: &str,
    marks: &[CueMark],
    shelf: &mut S,
) -> Result<(), RenderFault>
    ensures all { OnOk result (WroteFiles (S.told shelf.old) (S.told shelf.new) (cue_name name.now
        ∷ []) (cue_file library.now name.now (map cue_of marks.now) ∷ [])) }
    ensures some { WroteUpto (S.told shelf.old) (S.told shelf.new) (cue_name name.now
        ∷ []) (cue_file library.now name.now (map cue_of marks.now) ∷ []) }
    ensures cause { IsErrOf result RenderFault.Write → Rose (S.told shelf.old).writes (S.told shelf.new).writes }
{
    let file = cue_file_name(alloc, name)?;
    let text = text_of(alloc, library, marks)?;
    write_file(shelf, file.as_str(), text.as_bytes())
}

/// The name of an output's cue file: that of the output with `.cue` behind it.
pub fn cue_file_name(alloc: Global, output: &str) -> Result<String, AllocError>
    ensures { IfOk result (λ file. string_bytes file ≡ cue_name output.now) }
{
    let mut file = String::from_str(alloc, output)?;
    file.push_str(".cue")?;
    Ok(file)
}

// The text of a cue file: a line for each mark, that is, for each track that begins in the output.
fn text_of(alloc: Global, library: &Library, marks: &[CueMark]) -> Result<String, AllocError>
    ensures { IfOk result (λ text. string_bytes text ≡ cue_text library.now (map cue_of marks.now)) }
{
    let mut text = String::new(alloc);
    for mark in marks {
        push_line(alloc, &mut text, library, *mark)?;
    }
    Ok(text)
}

// Appends a mark's line to the text of a cue file: the instant at which a track begins, and the name of its file if
// it has one.
fn push_line(
    alloc: Global,
    text: &mut String,
    library: &Library,
    mark: CueMark,
) -> Result<(), AllocError>
    ensures { OnOk result (string_bytes text.new ≡ string_bytes text.old ++ cue_line library.now (cue_of mark)) }
{
    text.push_str(&mark.at.to_string(alloc)?)?;
    push_title(text, library, mark.title)?;
    text.push_str("\n")
}

// Appends to a line of a cue file a space and the name of the file for which this title stands: title k + 1 is the
// name of file k. Nothing comes for 0, a title without a file.
fn push_title(text: &mut String, library: &Library, title: u32) -> Result<(), AllocError>
    ensures { OnOk result (string_bytes text.new ≡ string_bytes text.old ++ spaced (title_name library.now title)) }
{
    if title == 0 {
        return Ok(());
    }
    let Some(name) = library.names().get(title as usize - 1) else {
        return Ok(());
    };
    text.push_str(" ")?;
    text.push_str(name.as_str())
}
