// The audio files that were met on the walk.
ghost use Rattle.std.specs.Prelude.{◌≡◌, ◌≤◌, ◌<◌, ◌+◌, ◌^◌, ◌++◌, ◌∷◌, [], length, true, Ok, Err, None, Some, IfOk};
ghost use Rattle.std.specs.Prelude.{IfErr, OnOk, Option};
ghost use Rattle.std.specs.Option.{ForSome};
ghost use Rattle.liq_base.specs.Files.{Files};
ghost use Rattle.track_library.specs.Walk.{Ends, EndsAt, audio_at, count_of, first_use, use_audio, entry_of};
ghost use Rattle.track_library.specs.Reads.{FirstRead};
ghost use Rattle.track_library.specs.States.{heard_of, one_kept, AreRules, Finds, IsHeard, IsHeld, Keeps};
ghost use Rattle.track_library.specs.declared.rules.Rules.{Rules};
ghost use Rattle.liq_base.specs.Shelves.{OnlyRead};

use crate::fault::{LoadFault, Unusable};
use crate::reading::find_audio;
use crate::rules::Rules;
use crate::undecoded::Undecoded;
use indexmap::IndexMap;
use liq_base::{Memory, Shelf, Text};
use std::alloc::Global;

/// The audio files that were met: what each name is, and, if they are kept, those that are used.
#[derive(Drop)]
pub struct AudioFiles {
    /// Each name's number among the files, or why its file cannot be used.
    pub names: IndexMap<String, Result<u32, Unusable>>,

    /// The names of the files that are used, in the order in which they were met.
    pub titles: Vec<Text>,

    /// How many bytes they count for.
    pub bytes: u64,

    /// Whether the files are kept.
    pub keeps: bool,

    /// The files that are used, in that order, if they are kept. None is decoded.
    pub files: Vec<Undecoded>,
}

impl AudioFiles {
    /// Looks up what this name was found to be earlier on the walk over the plan's nodes. `Ok` has its number among the
    /// files that are used, an inner `Err` why it cannot be used. `None` says that it was not met before.
    fn known(&self, name: &str) -> Option<Result<u32, Unusable>>
        ensures { result ≡ entry_of name.now (heard_of self.now).names }
    {
        self.names.get(name).copied()
    }

    /// Notes what a new name was found to be, so that its file is read once: its number among the files that are used,
    /// or why it cannot be used.
    fn note(
        &mut self,
        alloc: Global,
        name: &str,
        found: Result<u32, Unusable>,
    ) -> Result<(), Memory>
        requires { entry_of name.now (heard_of self.old).names ≡ None }
        ensures noted { OnOk result (heard_of self.new ≡ record (heard_of self.old) {
          names = (heard_of self.old).names
              ++ (name.now, found) ∷ [];
        }) }
        ensures kept { OnOk result ((rules : Rules) (told : Option Files) → Keeps rules told self.old self.new) }
    {
        self.names.insert(String::from_str(alloc, name)?, found)?;
        Ok(())
    }

    /// Adds the name of a file that is used, and the file itself where files are kept (`None` where not). Answers its
    /// number among the files that are used.
    fn keep(&mut self, alloc: Global, name: &str, file: Option<Undecoded>) -> Result<u32, Memory>
        ensures number { IfOk result (λ number. number ≡ length (heard_of self.old).titles) }
        ensures few { IfOk result (λ number. number + 1 < 2 ^ 32) }
        ensures titled { OnOk result (heard_of self.new
            ≡ record (heard_of self.old) { titles = (heard_of self.old).titles ++ name.now ∷ [] }) }
        ensures files { OnOk result (self.new.files.items ≡ one_kept self.old.files.items file) }
        ensures keeps { OnOk result (self.new.keeps ≡ self.old.keeps) }
    {
        let number = new_number(self.titles.len())?;
        push_some(&mut self.files, file)?;
        self.titles.push(Text::from_str(alloc, name)?)?;
        Ok(number)
    }

    /// Adds an audio file that was not met before: `found` has the file, where it is kept, and how many bytes it counts
    /// for, or why it cannot be used. Answers its number, or as the inner `Err` why it cannot be used. The outer `Err`
    /// ends the load: with it, all files would count for more than `all` bytes, or there was no memory.
    fn add(
        &mut self,
        alloc: Global,
        name: &str,
        found: Result<(Option<Undecoded>, u64), Unusable>,
        all: u64,
    ) -> Result<Result<u32, Unusable>, LoadFault>
        requires heard { IsHeard (heard_of self.old) }
        requires unknown { entry_of name.now (heard_of self.old).names ≡ None }
        ensures used { IfOk result (λ number. first_use all (heard_of self.old) name.now (count_of found)
            ≡ Ok (heard_of self.new, number)) }
        ensures finds { IfOk result (λ number. Finds (heard_of self.old) (heard_of self.new) number) }
        ensures kept { OnOk result ((rules : Rules) (told : Option Files)
            → ForSome told (λ files. count_of (audio_at rules files name.now) ≡ count_of found)
            → (self.old.keeps ≡ true → IfOk found (λ audio. IsHeld rules told name.now audio.0))
            → Keeps rules told self.old self.new) }
        ensures fault { IfErr result (EndsAt (first_use all (heard_of self.old) name.now (count_of found))) }
    {
        let (file, size) = match found {
            Ok(audio) => audio,
            Err(fault) => {
                self.note(alloc, name, Err(fault))?;
                return Ok(Err(fault));
            }
        };
        let bytes = match self.bytes.checked_add(size) {
            Some(bytes) if bytes <= all => bytes,
            _ => return Err(LoadFault::AllTooLarge),
        };
        let number = self.keep(alloc, name, file)?;
        self.bytes = bytes;
        self.note(alloc, name, Ok(number))?;
        Ok(Ok(number))
    }

    /// Finds the number of the audio file of this name among those that are used. It is read where it was not met
    /// before. An inner `Err` says why it cannot be used. The outer `Err` ends the load: a read failed, all files count
    /// for too many bytes, or there was no memory.
    pub fn find<S: Shelf>(
        &mut self,
        alloc: Global,
        shelf: &mut S,
        name: &str,
        rules: Rules,
    ) -> Result<Result<u32, Unusable>, LoadFault>
        requires heard { IsHeard (heard_of self.old) }
        requires rules { AreRules rules }
        ensures used { IfOk result
            (λ found. ForSome (S.told shelf.old).files (λ files. use_audio rules files (heard_of self.old) name.now
            ≡ Ok (heard_of self.new, found))) }
        ensures finds { IfOk result (λ found. Finds (heard_of self.old) (heard_of self.new) found) }
        ensures kept { OnOk result (Keeps rules (S.told shelf.old).files self.old self.new) }
        ensures fault { IfErr result
            (Ends (S.told shelf.old) (S.told shelf.new) (λ _. FirstRead (heard_of self.old).names name.now)
            (λ files. use_audio rules files (heard_of self.old) name.now)) }
        ensures shelf { OnlyRead (S.told shelf.old) (S.told shelf.new) }
    {
        if let Some(found) = self.known(name) {
            return Ok(found);
        }
        let found = find_audio(alloc, shelf, name, rules, self.keeps)?;
        self.add(alloc, name, found, rules.all)
    }
}

/// Adds an audio file to those that are kept. `None` stands for a file that is used and not kept, and adds nothing.
fn push_some(files: &mut Vec<Undecoded>, file: Option<Undecoded>) -> Result<(), Memory>
    ensures { OnOk result (files.new.items ≡ one_kept files.old.items file) }
{
    if let Some(file) = file {
        files.push(file)?;
    }
    Ok(())
}

/// The number of a file or a list that comes after `count` others, as 32 bits. From 2^32 - 1 others on it is refused,
/// as if there was no memory.
pub fn new_number(count: usize) -> Result<u32, Memory>
    ensures number { IfOk result (λ number. number ≡ count) }
    ensures few { IfOk result (λ number. number + 1 < 2 ^ 32) }
{
    match u32::try_from(count) {
        Ok(number) if number < u32::MAX => Ok(number),
        _ => Err(Memory),
    }
}
