// The tracks of audio files.
ghost use Rattle.std.specs.Prelude.{◌≡◌, ◌≤◌, ◌+◌, length, true, false, IfOk};
ghost use Rattle.wav_io.specs.Fronts.{IsHeadOf, wav_at};
ghost use Rattle.wav_io.specs.Reading.{read_of};
ghost use Rattle.track_library.specs.Files.{sound_in};

use crate::samples::read_wide;
use frame_core::Track;
use liq_base::Memory;
use resample::{Blocks, Changed};
use std::alloc::Global;
use wav_io::Head;

/// The track that the engine plays of a WAV file with these bytes and this head, at `rate` samples a second, from 8000
/// to 192000. Only 24-bit samples at this very rate are decoded here. All other samples stay in the bytes of the file
/// and are made where they are read.
pub fn track_of(alloc: Global, bytes: Vec<u8>, head: Head, rate: u32) -> Result<Track, Memory>
    requires head { IsHeadOf bytes.items head }
    requires few { length bytes.items ≤ 268435456 }
    requires least { 8000 ≤ rate }
    requires most { rate ≤ 192000 }
    ensures track { IfOk result (λ track. track ≡ sound_in rate (read_of bytes.items)) }
{
    if head.rate != rate {
        return Ok(changed_track(bytes, head, rate));
    }
    if head.wide {
        return wide_track(alloc, bytes, head);
    }
    Ok(own_track(bytes, head))
}

// The track of a WAV file whose own rate is another than `rate`, at which it is played: each sample is made where it
// is read.
fn changed_track(bytes: Vec<u8>, head: Head, rate: u32) -> Track
    requires head { IsHeadOf bytes.items head }
    requires few { length bytes.items ≤ 268435456 }
    requires least { 8000 ≤ rate }
    requires most { rate ≤ 192000 }
    ensures { result ≡ sound_in rate (read_of bytes.items) }
{
    let blocks = Blocks {
        kind: head.kind,
        wide: head.wide,
        bytes,
        at: head.at as usize,
        size: head.size as usize,
    };
    Track::of_changed(Changed::new(blocks, head.rate, rate))
}

// The track of a file of 24 bits at its own rate: its samples, decoded to 16 bits. The bytes are given back once they
// are decoded.
fn wide_track(alloc: Global, bytes: Vec<u8>, head: Head) -> Result<Track, Memory>
    requires head { IsHeadOf bytes.items head }
    requires few { length bytes.items ≤ 268435456 }
    requires wide { head.wide ≡ true }
    ensures track { IfOk result (λ track. track ≡ sound_in head.rate (read_of bytes.items)) }
{
    let samples = read_wide(alloc, body_of(&bytes, head))?;
    Ok(Track::new(head.kind, samples))
}

// The audio data (the blocks of samples) in the bytes of a WAV file with this head.
fn body_of(bytes: &[u8], head: Head) -> &[u8]
    requires { head.at + head.size ≤ length bytes.now }
    ensures { result.now ≡ (wav_at bytes.now head).body }
{
    let (_, behind) = bytes.split_at(head.at as usize);
    &behind[..head.size as usize]
}

// The track of a file of 16 bits at its own rate, whose samples stay in the bytes of the file.
fn own_track(bytes: Vec<u8>, head: Head) -> Track
    requires head { IsHeadOf bytes.items head }
    requires few { length bytes.items ≤ 268435456 }
    requires narrow { head.wide ≡ false }
    ensures { result ≡ sound_in head.rate (read_of bytes.items) }
{
    Track::of_bytes(head.kind, bytes, head.at as usize, head.size as usize)
}
