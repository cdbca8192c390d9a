// Looks at audio files.
ghost use Rattle.std.specs.Prelude.{◌≡◌, ◌≤◌, ◌<◌, IfOk};
ghost use Rattle.wav_io.specs.Fronts.{AreWhole};
ghost use Rattle.liq_base.specs.Shelves.{OnlyRead};
ghost use Rattle.sound_looks.specs.Looks.{head_facts, IsLooked};
ghost use Rattle.track_library.specs.States.{AreRules};

use liq_base::{Kind, Memory, Shelf};
use std::alloc::Global;
use track_library::{LoadFault, Rules, Unusable, block_count, find_head, written_bytes};
use wav_io::Head;

/// What a WAV file holds, and for how much it counts.
#[derive(Clone, Copy, Debug)]
pub struct Facts {
    pub kind: Kind,

    /// Samples a second of its own.
    pub rate: u32,

    /// Whether its samples have 24 bits; else they have 16.
    pub wide: bool,

    /// The place of the first byte of its samples.
    pub place: u64,

    /// The samples of each channel, as the file has them.
    pub own: u64,

    /// The samples of each channel at the rate of the script.
    pub played: u64,

    /// The bytes for which the file counts.
    pub bytes: u64,
}

/// What a look at an audio file found.
#[derive(Clone, Copy, Debug)]
pub enum Look {
    /// The file could not be read.
    Unread,

    /// It holds no sound, is not there, or has more bytes than an audio file may.
    Bad(Unusable),

    /// A sound, which is used if it counts for no more than an audio file may.
    Sound(Facts),
}

/// Looks at the audio file of this name, by the rules of a plan, and tells what it holds or why it is of no use.
/// `Err` is want of memory alone: a file that cannot be read is `Unread`. What was read of it is given back before it
/// returns.
pub fn look_at<S: Shelf>(
    alloc: Global,
    shelf: &mut S,
    name: &str,
    rules: Rules,
) -> Result<Look, Memory>
    requires { AreRules rules }
    ensures looked { IfOk result (IsLooked rules name.now (S.told shelf.old) (S.told shelf.new)) }
    ensures shelf { OnlyRead (S.told shelf.old) (S.told shelf.new) }
{
    match find_head(alloc, shelf, name, rules.file) {
        Ok(Ok((head, size))) => Ok(Look::Sound(facts_of(size, head, rules))),
        Ok(Err(fault)) => Ok(Look::Bad(fault)),
        Err(LoadFault::ReadFault(_)) => Ok(Look::Unread),
        Err(_) => Err(Memory),
    }
}

// What is told of a WAV file of `size` bytes by its head: kind, rate, width, where its samples begin, and how many
// there are, in the file and at the rate of the plan. It counts for its own bytes, or for those of a 16-bit file at
// that rate if these are more.
fn facts_of(size: u64, head: Head, rules: Rules) -> Facts
    requires rules { AreRules rules }
    requires rate { 0 < head.rate }
    requires blocks { AreWhole head.wide head.kind head.size }
    requires few { head.size ≤ 268435456 }
    ensures { result ≡ head_facts rules size head }
{
    let own = block_count(head);
    let written = written_bytes(head, rules.rate);
    Facts {
        kind: head.kind,
        rate: head.rate,
        wide: head.wide,
        place: head.at,
        own,
        played: resample::length(own, head.rate, rules.rate),
        bytes: size.max(written),
    }
}
