// Audio files that are read from a shelf.
ghost use Rattle.std.specs.Prelude.{◌≡◌, ◌≤◌, ◌<◌, [], length, true, Ok, Err, IfOk, IfErr, MatchResult};
ghost use Rattle.std.specs.Option.{ForSome};
ghost use Rattle.liq_base.specs.Counts.{Rose};
ghost use Rattle.liq_base.specs.Files.{file_at};
ghost use Rattle.frame_core.specs.Sounds.{IsSound};
ghost use Rattle.wav_io.specs.Fronts.{AreWhole, IsHeadOf};
ghost use Rattle.wav_io.specs.Reading.{read_of};
ghost use Rattle.resample.specs.Resampled.{AreRates};
ghost use Rattle.track_library.specs.Heads.{blocks_in, head_count, samples_in, written_size, IsFoundFront, IsFoundHead};
ghost use Rattle.track_library.specs.Heads.{IsHeadIn};
ghost use Rattle.track_library.specs.Walk.{audio_at, audio_in, bytes_in, count_of, items_of, IsReading};
ghost use Rattle.track_library.specs.Files.{sound_in};
ghost use Rattle.track_library.specs.States.{AreRules, IsHeld};
ghost use Rattle.liq_base.specs.Shelves.{OnlyRead, ShelfTold};

use crate::fault::{LoadFault, Unusable};
use crate::rules::Rules;
use crate::undecoded::Undecoded;
use liq_base::{Fetched, Looked, Memory, Shelf, ShelfFault, Text};
use std::alloc::Global;
use wav_io::{Head, head_of, read_head};

/// How many bytes come before the blocks of a file with nothing else in it.
const HEADER_BYTES: u64 = 44;

/// How many of a file's first bytes are looked at.
const FRONT_BYTES: u64 = 16_384;

/// Reads the whole file of this name from the shelf. An inner `Err` says why the file cannot be used: it is not there,
/// or has more than `most` bytes. The outer `Err` ends the load: the read failed, or there was no memory.
pub fn fetch<S: Shelf>(
    alloc: Global,
    shelf: &mut S,
    name: &str,
    most: u64,
) -> Result<Result<Vec<u8>, Unusable>, LoadFault>
    ensures fetched { IfOk result
        (λ found. ForSome (S.told shelf.old).files (λ files. bytes_in most (file_at files name.now) ≡ items_of found)) }
    ensures few { IfOk result (λ found. IfOk found (λ bytes. length bytes.items ≤ most)) }
    ensures fault { IfErr result (λ fault. IsReading name.now (S.told shelf.old) (S.told shelf.new) fault) }
    ensures shelf { OnlyRead (S.told shelf.old) (S.told shelf.new) }
{
    let mut bytes = Vec::new(alloc);
    match shelf.read(name, &mut bytes, most) {
        Ok(Fetched::Found) => Ok(Ok(bytes)),
        Ok(Fetched::Missing) => Ok(Err(Unusable::NotThere)),
        Ok(Fetched::TooLarge) => Ok(Err(Unusable::TooLong)),
        Err(ShelfFault::Failed) => Err(read_fault(alloc, name)),
        Err(ShelfFault::Memory) => Err(LoadFault::Memory),
    }
}

/// The fault that ends a load since the file of this name could not be read. Where there is no memory for the name, it
/// is `LoadFault::Memory`.
fn read_fault(alloc: Global, name: &str) -> LoadFault
    ensures { (old new : ShelfTold) → Rose old.reads new.reads → IsReading name.now old new result }
{
    match Text::from_str(alloc, name) {
        Ok(name) => LoadFault::ReadFault(name),
        Err(_) => LoadFault::Memory,
    }
}

/// Finds the head of the WAV file of this name (its rate, channels and where its samples stand), and how many bytes the
/// file has. Only where its first bytes do not tell the head, the file is read whole. An inner `Err` says why the file
/// cannot be used, as that it has more than `most` bytes; the outer one ends the load.
pub fn find_head<S: Shelf>(
    alloc: Global,
    shelf: &mut S,
    name: &str,
    most: u64,
) -> Result<Result<(Head, u64), Unusable>, LoadFault>
    ensures head { IfOk result (IsFoundHead name.now most (S.told shelf.old).files) }
    ensures fault { IfErr result (λ fault. IsReading name.now (S.told shelf.old) (S.told shelf.new) fault) }
    ensures shelf { OnlyRead (S.told shelf.old) (S.told shelf.new) }
{
    let mut front = Vec::new(alloc);
    let size = match look_at_front(alloc, shelf, name, &mut front, most)? {
        Ok(size) => size,
        Err(fault) => return Ok(Err(fault)),
    };
    match read_head(&front, size) {
        Some(Ok(head)) => Ok(Ok((head, size))),
        Some(Err(fault)) => Ok(Err(Unusable::NotWav(fault))),
        None => find_whole_head(alloc, shelf, name, most),
    }
}

/// Reads the first bytes of the file of this name into the empty list `front`, and answers how many bytes the whole
/// file has. An inner `Err` says that it is not there, or has more than `most` bytes. The outer `Err` ends the load:
/// the read failed, or there was no memory.
fn look_at_front<S: Shelf>(
    alloc: Global,
    shelf: &mut S,
    name: &str,
    front: &mut Vec<u8>,
    most: u64,
) -> Result<Result<u64, Unusable>, LoadFault>
    requires { front.old.items ≡ [] }
    ensures front { IfOk result (IsFoundFront name.now most (S.told shelf.old).files front.new.items) }
    ensures fault { IfErr result (λ fault. IsReading name.now (S.told shelf.old) (S.told shelf.new) fault) }
    ensures shelf { OnlyRead (S.told shelf.old) (S.told shelf.new) }
{
    match shelf.look(name, front, FRONT_BYTES, most) {
        Ok(Looked::Found(size)) => Ok(Ok(size)),
        Ok(Looked::Missing) => Ok(Err(Unusable::NotThere)),
        Ok(Looked::TooLarge) => Ok(Err(Unusable::TooLong)),
        Err(ShelfFault::Failed) => Err(read_fault(alloc, name)),
        Err(ShelfFault::Memory) => Err(LoadFault::Memory),
    }
}

/// Reads the WAV file of this name whole, for the case that its first bytes do not tell its head. Answers the head and
/// how many bytes the file has. An inner `Err` says why it cannot be used: not there, no WAV file, or more than `most`
/// bytes. The outer `Err` ends the load: the read failed, or there was no memory.
fn find_whole_head<S: Shelf>(
    alloc: Global,
    shelf: &mut S,
    name: &str,
    most: u64,
) -> Result<Result<(Head, u64), Unusable>, LoadFault>
    ensures head { IfOk result (IsFoundHead name.now most (S.told shelf.old).files) }
    ensures fault { IfErr result (λ fault. IsReading name.now (S.told shelf.old) (S.told shelf.new) fault) }
    ensures shelf { OnlyRead (S.told shelf.old) (S.told shelf.new) }
{
    match fetch(alloc, shelf, name, most)? {
        Ok(bytes) => Ok(head_in(&bytes)),
        Err(fault) => Ok(Err(fault)),
    }
}

/// The head of the WAV file with these bytes (its rate, channels and where its samples stand), and how many bytes they
/// are. `Err` says why they are no WAV file.
fn head_in(bytes: &[u8]) -> Result<(Head, u64), Unusable>
    ensures { IsHeadIn bytes.now result }
{
    match head_of(bytes) {
        Ok(head) => Ok((head, bytes.len() as u64)),
        Err(fault) => Err(Unusable::NotWav(fault)),
    }
}

/// How many bytes an audio file with these bytes and this head counts for against the limits in `rules`. `Err` is
/// `TooLong`: it counts for more than one file may.
fn count_bytes(bytes: &[u8], head: Head, rules: Rules) -> Result<u64, Unusable>
    requires rules { AreRules rules }
    requires few { length bytes.now ≤ rules.file }
    requires head { IsHeadOf bytes.now head }
    ensures counted { MatchResult result
        (λ count. audio_in rules bytes.now (read_of bytes.now) ≡ Ok (sound_in rules.rate (read_of bytes.now), count))
        (λ fault. audio_in rules bytes.now (read_of bytes.now) ≡ Err fault) }
{
    count_head(head, bytes.len() as u64, rules)
}

/// How many bytes a file with this head and of `size` bytes counts for against the limits in `rules`: its own, or those
/// of its sound at the rate of the script, whichever are more. `Err` is `TooLong`: it counts for more than one file
/// may.
fn count_head(head: Head, size: u64, rules: Rules) -> Result<u64, Unusable>
    requires rules { AreRules rules }
    requires rate { 0 < head.rate }
    requires blocks { AreWhole head.wide head.kind head.size }
    requires few { head.size ≤ 268435456 }
    ensures { result ≡ head_count rules head size }
{
    let counted = size.max(written_bytes(head, rules.rate));
    if counted > rules.file {
        return Err(Unusable::TooLong);
    }
    Ok(counted)
}

/// Makes an audio file of these bytes, which is not decoded yet, and answers with it how many bytes it counts for
/// against the limits in `rules`. `Err` says why it cannot be used: it is no WAV file, or too long.
fn use_bytes(bytes: Vec<u8>, rules: Rules) -> Result<(Undecoded, u64), Unusable>
    requires rules { AreRules rules }
    requires few { length bytes.items ≤ rules.file }
    ensures audio { audio_in rules bytes.items (read_of bytes.items) ≡ result }
    ensures sound { IfOk result (λ audio. IsSound audio.0) }
{
    let head = match head_of(&bytes) {
        Ok(head) => head,
        Err(fault) => return Err(Unusable::NotWav(fault)),
    };
    match count_bytes(&bytes, head, rules) {
        Ok(count) => Ok((Undecoded::new(bytes, head, rules.rate), count)),
        Err(fault) => Err(fault),
    }
}

/// How many bytes a WAV file of 16 bits has that holds the sound of a file of this head at `to` samples a second.
pub fn written_bytes(head: Head, to: u32) -> u64
    requires blocks { AreWhole head.wide head.kind head.size }
    requires few { head.size ≤ 268435456 }
    requires rates { AreRates head.rate to }
    ensures { result ≡ written_size head to }
{
    let block = 2 * u64::from(head.kind.channels());
    HEADER_BYTES + block * resample::length(block_count(head), head.rate, to)
}

/// How many blocks a WAV file with this head has; a block is one sample for each channel.
pub fn block_count(head: Head) -> u64
    requires blocks { AreWhole head.wide head.kind head.size }
    requires few { head.size ≤ 268435456 }
    ensures count { result ≡ blocks_in head }
    ensures some { 1 ≤ result }
    ensures few { result ≤ 134217728 }
{
    sample_count(head.wide, head.size) / u64::from(head.kind.channels())
}

/// How many samples stand in `size` bytes of audio data: three bytes each where they are wide (24 bits), and else two.
fn sample_count(wide: bool, size: u64) -> u64
    ensures { result ≡ samples_in wide size }
{
    if wide { size / 3 } else { size / 2 }
}

/// Reads the audio file of this name, not decoded, and answers with it how many bytes it counts for against the limits.
/// An inner `Err` says why the file cannot be used: that is known from its bytes, before memory is taken for samples.
/// The outer `Err` ends the load: the read failed, or there was no memory.
fn read_audio<S: Shelf>(
    alloc: Global,
    shelf: &mut S,
    name: &str,
    rules: Rules,
) -> Result<Result<(Undecoded, u64), Unusable>, LoadFault>
    requires { AreRules rules }
    ensures audio { IfOk result (λ found. ForSome (S.told shelf.old).files (λ files. audio_at rules files name.now
        ≡ found)) }
    ensures sound { IfOk result (λ found. IfOk found (λ audio. IsSound audio.0)) }
    ensures fault { IfErr result (λ fault. IsReading name.now (S.told shelf.old) (S.told shelf.new) fault) }
    ensures shelf { OnlyRead (S.told shelf.old) (S.told shelf.new) }
{
    match fetch(alloc, shelf, name, rules.file)? {
        Ok(bytes) => Ok(use_bytes(bytes, rules)),
        Err(fault) => Ok(Err(fault)),
    }
}

/// How many bytes the audio file of this name counts for against the limits in `rules`. The file is not kept, since its
/// head is enough. An inner `Err` says why it cannot be used. The outer `Err` ends the load: the read failed, or there
/// was no memory.
fn count_audio<S: Shelf>(
    alloc: Global,
    shelf: &mut S,
    name: &str,
    rules: Rules,
) -> Result<Result<u64, Unusable>, LoadFault>
    requires { AreRules rules }
    ensures counted { IfOk result
        (λ found. ForSome (S.told shelf.old).files (λ files. count_of (audio_at rules files name.now) ≡ found)) }
    ensures fault { IfErr result (λ fault. IsReading name.now (S.told shelf.old) (S.told shelf.new) fault) }
    ensures shelf { OnlyRead (S.told shelf.old) (S.told shelf.new) }
{
    match find_head(alloc, shelf, name, rules.file)? {
        Ok((head, size)) => Ok(count_head(head, size, rules)),
        Err(fault) => Ok(Err(fault)),
    }
}

/// Finds the audio file of this name: itself, not decoded, where `keeps` is true and else `None`, and how many bytes it
/// counts for against the limits in `rules`. An inner `Err` says why it cannot be used. The outer `Err` ends the load:
/// the read failed, or there was no memory.
pub fn find_audio<S: Shelf>(
    alloc: Global,
    shelf: &mut S,
    name: &str,
    rules: Rules,
    keeps: bool,
) -> Result<Result<(Option<Undecoded>, u64), Unusable>, LoadFault>
    requires { AreRules rules }
    ensures counted { IfOk result
        (λ found. ForSome (S.told shelf.old).files (λ files. count_of (audio_at rules files name.now)
        ≡ count_of found)) }
    ensures kept { keeps ≡ true → IfOk result
        (λ found. IfOk found (λ audio. IsHeld rules (S.told shelf.old).files name.now audio.0)) }
    ensures fault { IfErr result (λ fault. IsReading name.now (S.told shelf.old) (S.told shelf.new) fault) }
    ensures shelf { OnlyRead (S.told shelf.old) (S.told shelf.new) }
{
    if keeps {
        match read_audio(alloc, shelf, name, rules)? {
            Ok((file, count)) => Ok(Ok((Some(file), count))),
            Err(fault) => Ok(Err(fault)),
        }
    } else {
        match count_audio(alloc, shelf, name, rules)? {
            Ok(count) => Ok(Ok((None, count))),
            Err(fault) => Ok(Err(fault)),
        }
    }
}
