// An audio file of words that are drawn one after another.
ghost use Rattle.std.specs.Prelude.{◌≡◌, ◌≤◌, ◌<◌, ◌+◌, ◌%◌, ◌++◌, ℕ, suc, IfOk, OnOk};
ghost use Rattle.frame_core.specs.Bytes.{sample_bytes};
ghost use Rattle.seed_words.specs.Words.{word, words_from};
ghost use Rattle.workload_gen.specs.Files.{drawn_bytes, length_at, sample_of, track_bytes};

use liq_base::{Kind, Memory};
use seed_words::SeedWords;
use std::alloc::{AllocError, Global};
use wav_io::header;

/// How many samples a second each audio file has.
const RATE: u32 = 8000;

/// The bytes of the next audio file, of random samples: its length, from 1 to 4000 samples, takes one word of the
/// seed, and so does each sample.
pub fn track(alloc: Global, words: &mut SeedWords) -> Result<Vec<u8>, Memory>
    ensures bytes { IfOk result (λ bytes. (seed begin : ℕ) → words.old ≡ words_from seed begin
        → bytes.items ≡ track_bytes seed begin) }
    ensures words { OnOk result ((seed begin : ℕ) → words.old ≡ words_from seed begin
        → words.new ≡ words_from seed (begin + 1 + length_at seed begin)) }
{
    let length = 1 + words.next_word() % 4000;
    let Some(head) = header(Kind::Mono, RATE, u64::from(length)) else {
        return Err(Memory);
    };
    let mut bytes = Vec::with_capacity(alloc, head.len() + 2 * length as usize)?;
    bytes.extend_from_slice(&head)?;
    draw(words, length, &mut bytes)?;
    Ok(bytes)
}

// Adds the bytes of `count` random samples to `bytes`, each of which takes the next of the seed's random words.
fn draw(words: &mut SeedWords, count: u32, bytes: &mut Vec<u8>) -> Result<(), Memory>
    ensures bytes { OnOk result ((seed from : ℕ) → words.old ≡ words_from seed from
        → bytes.new.items ≡ bytes.old.items ++ drawn_bytes seed from count) }
    ensures words { OnOk result ((seed from : ℕ) → words.old ≡ words_from seed from
        → words.new ≡ words_from seed (from + count)) }
{
    for _ in 0..count {
        let sample = next_sample(words);
        push_sample(bytes, sample)?;
    }
    Ok(())
}

// The sample, from -10000 to 10000, that the next of the seed's random words stands for. It uses up the word.
fn next_sample(words: &mut SeedWords) -> i16
    ensures sample { (seed n : ℕ) → words.old ≡ words_from seed n → result ≡ sample_of (word seed n) }
    ensures words { (seed n : ℕ) → words.old ≡ words_from seed n → words.new ≡ words_from seed (suc n) }
{
    (words.next_word() % 20001) as i16 - 10000
}

// Adds a sample to the bytes of a file, as two bytes, the lower one first.
fn push_sample(bytes: &mut Vec<u8>, sample: i16) -> Result<(), AllocError>
    ensures { OnOk result (bytes.new.items ≡ bytes.old.items ++ sample_bytes sample) }
{
    bytes.extend_from_slice(&sample.to_le_bytes())
}
