// All of a plan and of its files.
ghost use Rattle.std.specs.Prelude.{◌≡◌, IfOk, OnOk, length};
ghost use Rattle.liq_base.specs.Shelves.{OnlyRead};
ghost use Rattle.plan_core.specs.Plans.{IsWellFormed};
ghost use Rattle.station_facts.specs.Files.{files_object, HasNoFiles, IsTold, limit_members, lists_of, sounds_of};
ghost use Rattle.station_facts.specs.Members.{Adds};
ghost use Rattle.track_library.specs.Loads.{rules_for};
ghost use Rattle.track_library.specs.States.{AreRules};

use crate::inferred::{Inferred, infer};
use crate::leaves::{lists_of, sounds_of};
use crate::members::{Out, begin, end, push_number};
use crate::plans::push_plan;
use crate::sounds::{all_bytes, look_at_lists, look_at_sounds, push_lists, push_sounds};
use json::Writer;
use liq_base::limits::{MAX_LIST_BYTES, MAX_SCRIPT_BYTES};
use liq_base::{Memory, Shelf, Text};
use plan_core::Plan;
use sound_looks::{ListLook, Look};
use std::alloc::Global;
use track_library::{Rules, Sizes};

/// Tells as one object of JSON what a plan is, and what becomes of each file that it plays.
/// `ats` has the byte of the script at which the call of each source begins; `sizes` has the most bytes of sounds.
/// Each list and each audio file is read once, and one audio file is held at a time; without files nothing is read.
/// A file that cannot be used is told, so an `Err` is want of memory alone.
pub fn tell_files<S: Shelf>(
    alloc: Global,
    plan: &Plan,
    ats: &[usize],
    shelf: &mut S,
    sizes: Sizes,
) -> Result<Vec<u8>, Memory>
    requires plan { IsWellFormed plan.now }
    requires rules { AreRules (rules_for plan.now sizes) }
    requires each { length ats.now ≡ length plan.now.nodes }
    ensures told { IfOk result
        (λ told. IsTold (rules_for plan.now sizes) plan.now ats.now (S.told shelf.old) (S.told shelf.new) told.items) }
    ensures shelf { OnlyRead (S.told shelf.old) (S.told shelf.new) }
    ensures untouched { HasNoFiles plan.now → shelf.new ≡ shelf.old }
{
    let rules = Rules {
        rate: plan.rate,
        file: sizes.file,
        all: sizes.all,
    };
    let inferred = infer(alloc, plan)?;
    let lists = lists_of(alloc, plan)?;
    let list_looks = look_at_lists(alloc, shelf, lists.as_slice())?;
    let sounds = sounds_of(alloc, plan, &list_looks)?;
    let looks = look_at_sounds(alloc, shelf, sounds.as_slice(), rules)?;
    let mut out = Writer::new(Vec::new(alloc));
    push_all(
        alloc,
        &mut out,
        plan,
        ats,
        &inferred,
        lists.as_slice(),
        &list_looks,
        sounds.as_slice(),
        &looks,
        rules,
    )?;
    Ok(out.into_inner())
}

// Writes the whole JSON object of a plan and its files: the plan, its lists and audio files, the bytes of all sounds,
// and the limits in `rules`. `lists` and `sounds` have names; `list_looks` and `looks` have what was found of each.
// `ats` has the byte at which the call of each source begins, and `inferred` which are never silent, and the clocks.
fn push_all(
    alloc: Global,
    out: &mut Out,
    plan: &Plan,
    ats: &[usize],
    inferred: &Inferred,
    lists: &[Text],
    list_looks: &[ListLook],
    sounds: &[Text],
    looks: &[Look],
    rules: Rules,
) -> Result<(), Memory>
    requires lists { lists.now ≡ lists_of plan.now }
    requires sounds { sounds.now ≡ sounds_of plan.now list_looks.now }
    ensures { OnOk result (Adds out.old out.new
        (files_object rules plan.now ats.now inferred.now list_looks.now looks.now)) }
{
    begin(out)?;
    push_plan(alloc, out, plan, ats, inferred)?;
    push_lists(out, lists, list_looks)?;
    push_sounds(out, sounds, looks, rules)?;
    push_number(out, "bytes", all_bytes(looks, rules)?)?;
    push_limits(out, rules)?;
    end(out)?;
    Ok(())
}

// Writes the limits of sizes as members: how many bytes all sounds that are used, one sound, a list and a script have
// at most.
fn push_limits(out: &mut Out, rules: Rules) -> Result<(), Memory>
    ensures { OnOk result (Adds out.old out.new (limit_members rules)) }
{
    push_number(out, "most", rules.all)?;
    push_number(out, "file_most", rules.file)?;
    push_number(out, "list_most", MAX_LIST_BYTES)?;
    push_number(out, "script_most", MAX_SCRIPT_BYTES)?;
    Ok(())
}
