// What is told of lists and sounds.
ghost use Rattle.std.specs.Prelude.{◌≡◌, ◌∷◌, [], OnOk, IfOk, codes};
ghost use Rattle.json.specs.Token.{string};
ghost use Rattle.liq_base.specs.Shelves.{OnlyRead};
ghost use Rattle.station_facts.specs.Members.{Adds, each, list_member, paired, paired_member};
ghost use Rattle.station_facts.specs.Files.{all_bytes, AreListLooks, AreLooks, count_or_none, facts_members};
ghost use Rattle.station_facts.specs.Files.{list_look_members, list_object, look_members, sound_object, state_member};
ghost use Rattle.station_facts.specs.Files.{unusable_members, use_word};
ghost use Rattle.sound_looks.specs.Looks.{counted_as};
ghost use Rattle.track_library.specs.States.{AreRules};

use crate::fault::wav_number;
use crate::members::{
    Out, begin, begin_list, bits_of, end, end_list, push_item, push_kind, push_number, push_text,
};
use liq_base::{Memory, Shelf, Text};
use sound_looks::{Facts, ListLook, Look, look_at, look_at_list};
use std::alloc::Global;
use track_library::{Rules, Unusable};

/// Looks on the shelf at each list of these names, one after another, and returns what was found of each.
/// A list that cannot be read or used is a finding too; an `Err` is want of memory alone.
pub fn look_at_lists<S: Shelf>(
    alloc: Global,
    shelf: &mut S,
    names: &[Text],
) -> Result<Vec<ListLook>, Memory>
    ensures looks { IfOk result (λ looks. AreListLooks names.now (S.told shelf.old) (S.told shelf.new) looks.items) }
    ensures shelf { OnlyRead (S.told shelf.old) (S.told shelf.new) }
    ensures untouched { names.now ≡ [] → shelf.new ≡ shelf.old }
{
    let mut looks = Vec::new(alloc);
    for name in names {
        let found = look_at_list(alloc, shelf, name.as_str())?;
        looks.push(found)?;
    }
    Ok(looks)
}

/// Looks on the shelf at each audio file of these names, one after another, and returns what was found of each.
/// `rules` has the plan's rate and the most bytes of a sound. An `Err` is want of memory alone.
pub fn look_at_sounds<S: Shelf>(
    alloc: Global,
    shelf: &mut S,
    names: &[Text],
    rules: Rules,
) -> Result<Vec<Look>, Memory>
    requires { AreRules rules }
    ensures looks { IfOk result (λ looks. AreLooks rules names.now (S.told shelf.old) (S.told shelf.new) looks.items) }
    ensures shelf { OnlyRead (S.told shelf.old) (S.told shelf.new) }
    ensures untouched { names.now ≡ [] → shelf.new ≡ shelf.old }
{
    let mut looks = Vec::new(alloc);
    for name in names {
        let found = look_at(alloc, shelf, name.as_str(), rules)?;
        looks.push(found)?;
    }
    Ok(looks)
}

/// Writes the member `lists`: of each list its name and what a look at it found.
pub fn push_lists(out: &mut Out, names: &[Text], looks: &[ListLook]) -> Result<(), Memory>
    ensures { OnOk result (Adds out.old out.new (paired_member (codes "lists") list_object names.now looks.now)) }
{
    begin_list(out, "lists")?;
    push_each_list(out, names, looks)?;
    end_list(out)
}

// Writes the object of each list, one after another, as far as there are looks.
fn push_each_list(out: &mut Out, names: &[Text], looks: &[ListLook]) -> Result<(), Memory>
    ensures { OnOk result (Adds out.old out.new (paired list_object names.now looks.now)) }
{
    for (k, name) in names.iter().enumerate() {
        match looks.get(k) {
            Some(found) => push_list(out, name, found)?,
            None => return Ok(()),
        }
    }
    Ok(())
}

// Writes the JSON object of a list of audio files: its name, and what a look at it found.
fn push_list(out: &mut Out, name: &Text, found: &ListLook) -> Result<(), Memory>
    ensures { OnOk result (Adds out.old out.new (list_object name.now found.now)) }
{
    begin(out)?;
    push_text(out, "name", name.as_str())?;
    push_list_look(out, found)?;
    end(out)
}

// Writes the members that say what a look at a list found: that it could not be read, why it is of no use, or its
// names and how many lines were skipped as no UTF-8.
fn push_list_look(out: &mut Out, found: &ListLook) -> Result<(), Memory>
    ensures { OnOk result (Adds out.old out.new (list_look_members found.now)) }
{
    match found {
        ListLook::Unread => push_state(out, "unread"),
        ListLook::Bad(fault) => push_unusable(out, *fault),
        ListLook::Names { names, skipped } => {
            push_state(out, "read")?;
            push_entries(out, names.as_slice())?;
            push_number(out, "skipped", *skipped)
        }
    }
}

// Writes the member `entries` of a list, the names of audio files in it.
fn push_entries(out: &mut Out, names: &[Text]) -> Result<(), Memory>
    ensures { OnOk result (Adds out.old out.new
        (list_member (codes "entries") (λ name. string name ∷ []) names.now)) }
{
    begin_list(out, "entries")?;
    push_each_entry(out, names)?;
    end_list(out)
}

// Writes each name of an audio file, as an item of a list.
fn push_each_entry(out: &mut Out, names: &[Text]) -> Result<(), Memory>
    ensures { OnOk result (Adds out.old out.new (each (λ name. string name ∷ []) names.now)) }
{
    for name in names {
        push_item(out, name.as_str())?;
    }
    Ok(())
}

/// Writes the member `sounds`: of each audio file its name and what a look at it found.
/// `rules` has the most bytes for which a sound that is used may count.
pub fn push_sounds(
    out: &mut Out,
    names: &[Text],
    looks: &[Look],
    rules: Rules,
) -> Result<(), Memory>
    ensures { OnOk result
        (Adds out.old out.new (paired_member (codes "sounds") (sound_object rules) names.now looks.now)) }
{
    begin_list(out, "sounds")?;
    push_each_sound(out, names, looks, rules)?;
    end_list(out)
}

// Writes the object of each audio file, one after another, as far as there are looks.
fn push_each_sound(
    out: &mut Out,
    names: &[Text],
    looks: &[Look],
    rules: Rules,
) -> Result<(), Memory>
    ensures { OnOk result (Adds out.old out.new (paired (sound_object rules) names.now looks.now)) }
{
    for (k, name) in names.iter().enumerate() {
        match looks.get(k) {
            Some(found) => push_sound(out, name, *found, rules)?,
            None => return Ok(()),
        }
    }
    Ok(())
}

// Writes the JSON object of an audio file: its name, and what a look at it found.
fn push_sound(out: &mut Out, name: &Text, found: Look, rules: Rules) -> Result<(), Memory>
    ensures { OnOk result (Adds out.old out.new (sound_object rules name.now found)) }
{
    begin(out)?;
    push_text(out, "name", name.as_str())?;
    push_look(out, found, rules)?;
    end(out)
}

// Writes the members that say what a look at an audio file found: that it could not be read, why it is of no use, or
// its facts and whether `rules` let it be used.
fn push_look(out: &mut Out, found: Look, rules: Rules) -> Result<(), Memory>
    ensures { OnOk result (Adds out.old out.new (look_members rules found)) }
{
    match found {
        Look::Unread => push_state(out, "unread"),
        Look::Bad(fault) => push_unusable(out, fault),
        Look::Sound(facts) => push_facts(out, facts, rules),
    }
}

// Writes the members of a sound: whether it is used, its format, its lengths, and for how many bytes it counts.
// It is used unless it counts for more bytes than `rules.file`.
fn push_facts(out: &mut Out, facts: Facts, rules: Rules) -> Result<(), Memory>
    ensures { OnOk result (Adds out.old out.new (facts_members rules facts)) }
{
    push_state(out, use_word(facts.bytes <= rules.file))?;
    push_kind(out, facts.kind)?;
    push_number(out, "bits", bits_of(facts.wide))?;
    push_number(out, "rate", u64::from(facts.rate))?;
    push_number(out, "place", facts.place)?;
    push_number(out, "own", facts.own)?;
    push_number(out, "played", facts.played)?;
    push_number(out, "bytes", facts.bytes)?;
    Ok(())
}

// The word for what becomes of a sound: it is used only if it counts for no more bytes than a sound may, which `fits`
// says.
fn use_word(fits: bool) -> &'static str
    ensures { result.now ≡ use_word fits }
{
    if fits { "used" } else { "too large" }
}

// Writes the members that say why a file or a list is of no use: it is missing, too large or no WAV file. Of the last
// the number of what is wrong is told too.
fn push_unusable(out: &mut Out, fault: Unusable) -> Result<(), Memory>
    ensures { OnOk result (Adds out.old out.new (unusable_members fault)) }
{
    match fault {
        Unusable::NotThere => push_state(out, "missing"),
        Unusable::TooLong => push_state(out, "too large"),
        Unusable::NotWav(fault) => {
            push_state(out, "not wav")?;
            push_number(out, "fault", wav_number(fault))
        }
    }
}

// Writes the member `state`, which says in a word what becomes of a file.
fn push_state(out: &mut Out, word: &str) -> Result<(), Memory>
    ensures { OnOk result (Adds out.old out.new (state_member word.now)) }
{
    push_text(out, "state", word)
}

/// For how many bytes all sounds count that are used: those that count for no more than `rules.file` each.
/// A sum that a u64 cannot hold counts as want of memory.
pub fn all_bytes(looks: &[Look], rules: Rules) -> Result<u64, Memory>
    ensures { IfOk result (λ bytes. bytes ≡ all_bytes rules looks.now) }
{
    let mut bytes: u64 = 0;
    for found in looks {
        bytes = match bytes.checked_add(count(*found, rules)) {
            Some(more) => more,
            None => return Err(Memory),
        };
    }
    Ok(bytes)
}

// For how many bytes an audio file counts in the sum of all; 0 if it is not used.
fn count(found: Look, rules: Rules) -> u64
    ensures { result ≡ count_or_none (counted_as rules found) }
{
    match found {
        Look::Sound(facts) if facts.bytes <= rules.file => facts.bytes,
        _ => 0,
    }
}
