// All files of a workload.
ghost use Rattle.std.specs.Prelude.{◌≡◌, ◌≤◌, ◌+◌, ℕ, suc, IfOk, OnOk, codes, map};
ghost use Rattle.seed_words.specs.Words.{words_from};
ghost use Rattle.workload_gen.specs.Files.{begin_of, file_of, list_text, script_text, track, workload};

use crate::script::{list, script, track_name};
use crate::track::track;
use liq_base::Memory;
use seed_words::SeedWords;
use std::alloc::Global;

/// The files of a workload, by name: `size` audio files, from 1 to 100, the list `all.m3u` of them, and the script
/// `make.liq` that plays them. They are the same for the same two numbers; `docs/formats.md` says what they hold.
pub fn make(alloc: Global, seed: u64, size: u32) -> Result<Vec<(String, Vec<u8>)>, Memory>
    requires some { 1 ≤ size }
    requires few { size ≤ 100 }
    ensures { IfOk result (λ files. (n : ℕ) → size ≡ n + 1 → map file_of files.items ≡ workload seed n) }
{
    let mut words = SeedWords::new(seed);
    let mut files = Vec::with_capacity(alloc, size as usize + 2)?;
    for number in 0..size {
        files.push(next_file(alloc, &mut words, number)?)?;
    }
    files.push(list_file(alloc, size)?)?;
    files.push(script_file(alloc, size - 1)?)?;
    Ok(files)
}

// The name and the bytes of the audio file of this number, whose length and samples are drawn from the next random
// words of the seed, which are used up.
fn next_file(alloc: Global, words: &mut SeedWords, number: u32) -> Result<(String, Vec<u8>), Memory>
    ensures file { IfOk result (λ file. (seed : ℕ) → words.old ≡ words_from seed (begin_of seed number)
        → file_of file ≡ track seed number) }
    ensures words { OnOk result ((seed : ℕ) → words.old ≡ words_from seed (begin_of seed number)
        → words.new ≡ words_from seed (begin_of seed (suc number))) }
{
    let bytes = track(alloc, words)?;
    Ok((track_name(alloc, number)?, bytes))
}

// The name and the bytes of the file `all.m3u`, which lists the first `size` audio files.
fn list_file(alloc: Global, size: u32) -> Result<(String, Vec<u8>), Memory>
    ensures { IfOk result (λ file. file_of file ≡ (codes "all.m3u", list_text size)) }
{
    let text = list(alloc, size)?;
    Ok((String::from_str(alloc, "all.m3u")?, text.into_bytes()))
}

// The name and the bytes of the file `make.liq`, the script that plays audio files 0 to `last`.
fn script_file(alloc: Global, last: u32) -> Result<(String, Vec<u8>), Memory>
    requires { last ≤ 99 }
    ensures { IfOk result (λ file. file_of file ≡ (codes "make.liq", script_text last)) }
{
    let text = script(alloc, last)?;
    Ok((String::from_str(alloc, "make.liq")?, text.into_bytes()))
}
