// What was told of the cases of switches, kept for the next switch with the same ones.
ghost use Rattle.std.specs.Prelude.{◌≡◌, All, IfOk, IfSome, OnOk, true, length, map};
ghost use Rattle.time_pred.specs.View.{view_shared};
ghost use Rattle.week_plan.specs.Looked.{IsAt, IsLooked, IsLookedAt};

use crate::cases::{Seen, look};
use crate::same::same_preds;
use liq_base::Memory;
use std::alloc::Global;
use time_pred::SharedPred;

/// How many lists of cases are kept.
const MOST: usize = 64;

/// Cases that were looked at, and what is told of them.
#[derive(Debug, Drop)]
pub struct Looked<'a> {
    pub preds: &'a [SharedPred],
    pub sure: Vec<bool>,
    pub seen: Seen,
}

/// Looks at the cases of a `switch` as `look` does, but only if no kept answer is about the same predicates and flags.
/// `sure` has the flags: of each case, whether its source never falls silent. Keeps the answer, and gives its place
/// among the kept ones.
pub fn look_kept<'a>(
    alloc: Global,
    kept: &mut Vec<Looked<'a>>,
    preds: &'a [SharedPred],
    sure: Vec<bool>,
) -> Result<usize, Memory>
    requires kept { All IsLooked kept.old.items }
    requires size { length sure.items ≡ length preds.now }
    ensures kept { OnOk result (All IsLooked kept.new.items) }
    ensures at { IfOk result (λ place. IsLookedAt kept.new.items place (map view_shared preds.now) sure.items) }
{
    match place_among(kept, preds, &sure) {
        Some(place) => Ok(place),
        None => look_anew(alloc, kept, preds, sure),
    }
}

// The place of the first kept answer that is about a `switch` with these predicates and flags (of each case, whether
// its source never falls silent); `None` where there is none.
fn place_among(kept: &[Looked<'_>], preds: &[SharedPred], sure: &[bool]) -> Option<usize>
    requires { All IsLooked kept.now }
    ensures { IfSome result (λ place. IsLookedAt kept.now place (map view_shared preds.now) sure.now) }
{
    for (place, looked) in kept.iter().enumerate() {
        if is_of(looked, preds, sure) {
            return Some(place);
        }
    }
    None
}

// Whether a kept answer is about a `switch` with these predicates, written alike and in the same order, and these flags
// (of each case, whether its source never falls silent).
fn is_of(looked: &Looked<'_>, preds: &[SharedPred], sure: &[bool]) -> bool
    ensures preds { result ≡ true → map view_shared looked.now.preds.now ≡ map view_shared preds.now }
    ensures sure { result ≡ true → looked.now.sure.items ≡ sure.now }
{
    if same_preds(looked.preds, preds) {
        return same_flags(&looked.sure, sure);
    }
    false
}

// Looks at the cases of a `switch` of which no answer is kept, keeps the answer, and gives its place. `sure` has of
// each case whether its source never falls silent. Where 64 answers are kept already, they are let go first.
fn look_anew<'a>(
    alloc: Global,
    kept: &mut Vec<Looked<'a>>,
    preds: &'a [SharedPred],
    sure: Vec<bool>,
) -> Result<usize, Memory>
    requires kept { All IsLooked kept.old.items }
    requires size { length sure.items ≡ length preds.now }
    ensures kept { OnOk result (All IsLooked kept.new.items) }
    ensures at { IfOk result (λ place. IsLookedAt kept.new.items place (map view_shared preds.now) sure.items) }
{
    let looked = looked_of(alloc, preds, sure)?;
    make_room(kept);
    let place = keep(kept, looked)?;
    Ok(place)
}

// Looks at the cases of a `switch`, and gives the answer together with their predicates and flags. `sure` has the
// flags: of each case, whether its source never falls silent.
fn looked_of<'a>(
    alloc: Global,
    preds: &'a [SharedPred],
    sure: Vec<bool>,
) -> Result<Looked<'a>, Memory>
    requires { length sure.items ≡ length preds.now }
    ensures looked { IfOk result IsLooked }
    ensures preds { IfOk result (λ looked. map view_shared looked.preds.now ≡ map view_shared preds.now) }
    ensures sure { IfOk result (λ looked. looked.sure.items ≡ sure.items) }
{
    let seen = look(alloc, preds, &sure)?;
    Ok(Looked { preds, sure, seen })
}

// Lets all kept answers go, if there are 64 of them, so that memory stays bounded.
fn make_room(kept: &mut Vec<Looked<'_>>)
    requires { All IsLooked kept.old.items }
    ensures { All IsLooked kept.new.items }
{
    if kept.len() >= MOST {
        kept.clear();
    }
}

// Appends an answer to the kept ones, and gives its place.
fn keep<'a>(kept: &mut Vec<Looked<'a>>, looked: Looked<'a>) -> Result<usize, Memory>
    requires kept { All IsLooked kept.old.items }
    requires looked { IsLooked looked }
    ensures kept { OnOk result (All IsLooked kept.new.items) }
    ensures at { IfOk result (λ place. IsAt kept.new.items place looked.entry) }
{
    let place = kept.len();
    kept.push(looked)?;
    Ok(place)
}

// Whether two lists of flags, one for each case of a `switch`, are equal.
fn same_flags(flags: &[bool], others: &[bool]) -> bool
    ensures { result ≡ true → flags.now ≡ others.now }
{
    if flags.len() != others.len() {
        return false;
    }
    for k in 0..flags.len() {
        if flags[k] != others[k] {
            return false;
        }
    }
    true
}
