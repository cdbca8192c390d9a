// A file at another rate, whose samples are made where they are read.
ghost use Rattle.std.specs.Prelude.{◌≡◌, ◌<◌, ◌≤◌, ◌+◌, ◌*◌, ◌-◌, ◌/◌, ◌^◌, ℕ, pos, length, map, min, take, drop};
ghost use Rattle.std.specs.Prelude.{slice_index_or, true};
ghost use Rattle.std.specs.List.{range_with_len};
ghost use Rattle.std.specs.Simd.Lanes.{put_chunk};
ghost use Rattle.liq_base.specs.Kinds.{channels_of};
ghost use Rattle.resample.specs.Bytes.{samples_at, samples_from, wide_samples_in};
ghost use Rattle.resample.specs.Changes.{blocks_at, changed_from, samples_in, samples_of, AreThere, IsSource, IsWay};
ghost use Rattle.resample.specs.Places.{reached};
ghost use Rattle.resample.specs.Resampled.{blocks_of, interpolated, resampled_sample, side_at, AreRates};

use crate::midway::number_between;
use crate::place::{Place, Way, moved, place_of, way_of};
use crate::rates::length;
use liq_base::Kind;
use sample_kernels::fade_eight;
use std::marker::Model;

/// A file that is read at another rate than its own. It holds the bytes of the file as they are.
#[derive(Debug, Drop)]
pub struct Changed {
    blocks: Blocks,

    // Samples a second, of the file and of what is read.
    from: u32,
    to: u32,
}

/// The blocks of a file, a sample of each channel in each: `size` bytes from byte `at` on.
#[derive(Debug, Drop)]
pub struct Blocks {
    pub kind: Kind,

    /// Whether the samples have 24 bits; else they have 16.
    pub wide: bool,

    pub bytes: Vec<u8>,
    pub at: usize,
    pub size: usize,
}

/// Blocks that fill these bytes, a sample of each channel in each, and the number of the last one.
#[derive(Clone, Copy)]
pub struct Source<'a> {
    pub bytes: &'a [u8],
    pub wide: bool,
    pub kind: Kind,
    pub last: usize,
}

impl Model for Changed {
    ghost use Rattle.resample.specs.Changes.{changed_from, AreThere, Samples};
    ghost use Rattle.resample.specs.Resampled.{AreRates};

    ghost Value = { Samples };

    ghost view = { λ c. changed_from c.from c.to c.blocks };

    ghost invariant = { λ c. AreRates c.from c.to × AreThere c.blocks };
}

impl Changed {
    /// The file of these blocks, which has rate `from`, read at rate `to`, from `MIN_RATE` to `MAX_RATE`, in samples a
    /// second.
    pub fn new(blocks: Blocks, from: u32, to: u32) -> Changed
        requires rates { AreRates from to }
        requires there { AreThere blocks }
        ensures { result ≡ changed_from from to blocks }
    {
        Changed { blocks, from, to }
    }

    /// Whether it is mono or stereo, which says how many channels it has.
    pub fn kind(&self) -> Kind
        ensures { result ≡ self.now.kind }
    {
        self.blocks.kind
    }

    /// How many samples it has at the rate at which it is read, those of both channels where there are two.
    pub fn count(&self) -> usize
        ensures count { result ≡ length self.now.samples }
        ensures few { result < 2 ^ 63 }
    {
        let source = source_of(&self.blocks);
        let blocks = length(source.last as u64 + 1, self.from, self.to) as usize;
        blocks * usize::from(source.kind.channels())
    }

    /// Sample `at` of what is read at the new rate, counted from 0 over both channels where there are two, left before
    /// right.
    pub fn sample(&self, at: usize) -> i16
        requires { at < length self.now.samples }
        ensures { result ≡ slice_index_or self.now.samples at (pos 0) }
    {
        let source = source_of(&self.blocks);
        let way = way_of(self.from, self.to);
        let channels = usize::from(source.kind.channels());
        let place = place_of(&way, (at / channels) as u64);
        sample_between(source, &way, place, at % channels)
    }

    /// Fills `into` with the samples of a side, 0 for left, from block `at` at the new rate on.
    pub fn read(&self, at: usize, side: usize, into: &mut [i16])
        requires side { side < channels_of self.now.kind }
        requires within { at + length into.old ≤ length self.now.samples / channels_of self.now.kind }
        ensures { into.new ≡ map (λ j. side_at self.now.kind self.now.samples j side)
            (range_with_len at (length into.old)) }
    {
        let source = source_of(&self.blocks);
        let way = way_of(self.from, self.to);
        read_side(source, &way, side, at, into);
    }
}

// Cuts the blocks of a file out of its bytes, without what stands around them, and counts them: `last` is the number of
// the last one.
fn source_of(blocks: &Blocks) -> Source<'_>
    requires { AreThere blocks.now }
    ensures source { IsSource result }
    ensures samples { samples_in result ≡ samples_of blocks.now }
    ensures kind { result.kind ≡ blocks.now.kind }
{
    let (_, behind) = blocks.bytes.split_at(blocks.at);
    let bytes = &behind[..blocks.size];
    let channels = usize::from(blocks.kind.channels());
    Source {
        bytes,
        wide: blocks.wide,
        kind: blocks.kind,
        last: count_in(bytes, blocks.wide) / channels - 1,
    }
}

// How many samples stand in these bytes, of three bytes each where they are `wide`, and of two otherwise.
fn count_in(bytes: &[u8], wide: bool) -> usize
    ensures { result ≡ length (samples_at wide bytes.now) }
{
    if wide {
        bytes.len() / 3
    } else {
        bytes.len() / 2
    }
}

// Fills `into` with samples of a side (0 is left) of `source` at the new rate, from block `at` at that rate on. `way`
// has both rates. Eight are made at a time where all lie before the last block of the file, and a part of the way
// between blocks fits into 16 bits; else they are made one by one.
fn read_side(source: Source<'_>, way: &Way, side: usize, at: usize, into: &mut [i16])
    requires source { IsSource source }
    requires way { IsWay way.now }
    requires side { side < channels_of source.kind }
    requires within { at + length into.old ≤ blocks_at source way.now }
    ensures { into.new ≡ map (λ j. resampled_sample way.now.from way.now.to source.entry.kind
        (samples_in source.entry) j side)
        (range_with_len at (length into.old)) }
{
    if way.to < 65_536 && are_inside(source, way, at + into.len()) {
        read_inside(source, way, side, at, into);
    } else {
        read_each(source, way, side, at, into);
    }
}

// Whether the first `blocks` blocks at the new rate lie before the last one of the file (`source`), so that each has a
// block behind it to go by. `way` has both rates.
fn are_inside(source: Source<'_>, way: &Way, blocks: usize) -> bool
    requires source { IsSource source }
    requires way { IsWay way.now }
    requires there { blocks ≤ blocks_at source way.now }
    ensures { result ≡ true → blocks * way.now.from ≤ source.entry.last * way.now.to }
{
    blocks as u64 * u64::from(way.from) <= source.last as u64 * u64::from(way.to)
}

// Fills `into` with samples of a side (0 is left) of `source` that lie before its last block, from block `at` at the
// new rate on. Eight are made at a time by vector instructions, and the rest one by one. `way` has both rates.
fn read_inside(source: Source<'_>, way: &Way, side: usize, at: usize, into: &mut [i16])
    requires source { IsSource source }
    requires way { IsWay way.now }
    requires short { way.now.to < 65536 }
    requires side { side < channels_of source.kind }
    requires within { at + length into.old ≤ blocks_at source way.now }
    requires inside { (at + length into.old) * way.now.from ≤ source.last * way.now.to }
    ensures { into.new ≡ map (λ j. resampled_sample way.now.from way.now.to source.entry.kind
        (samples_in source.entry) j side)
        (range_with_len at (length into.old)) }
{
    let mut place = place_of(way, at as u64);
    let mut done = 0;
    while into.len() - done >= 8 {
        place = make_eight(source, way, side, at + done, place, into, done);
        done += 8;
    }
    for k in done..into.len() {
        into[k] = sample_between(source, way, place, side);
        place = moved(place, way.step, way.to);
    }
}

// Makes eight samples of a side (0 is left) that lie before the last block of the file (`source`), and writes them to
// `into` from index `at` on. The first is of block `first` at the new rate, which lies at place `from` of the file.
// `way` has both rates. Answers the place behind the eighth.
fn make_eight(
    source: Source<'_>,
    way: &Way,
    side: usize,
    first: usize,
    from: Place,
    into: &mut [i16],
    at: usize,
) -> Place
    requires source { IsSource source }
    requires way { IsWay way.now }
    requires short { way.now.to < 65536 }
    requires side { side < channels_of source.kind }
    requires inside { (first + 8) * way.now.from ≤ source.last * way.now.to }
    requires part { from.part < way.now.to }
    requires whole { reached way.now.to from ≡ first * way.now.from }
    requires room { at + 8 ≤ length into.old }
    ensures made { into.new ≡ put_chunk at into.old (map (λ j. resampled_sample way.now.from way.now.to
        source.entry.kind (samples_in source.entry) j side) (range_with_len first 8)) }
    ensures part { result.part < way.now.to }
    ensures whole { reached way.now.to result ≡ (first + 8) * way.now.from }
{
    let mut before = [0_i16; 8];
    let mut behind = [0_i16; 8];
    let mut parts = [0_u16; 8];
    let mut place = from;
    for k in 0..8 {
        before[k] = sample_of(source, place.block, side);
        behind[k] = sample_of(source, place.block + 1, side);
        parts[k] = place.part as u16;
        place = moved(place, way.step, way.to);
    }
    fade_eight(&before, &behind, &parts, way.to, way.by_lanes, into, at);
    place
}

// Fills `into` with samples of a side (0 is left) of `source` one by one, from block `at` at the new rate on. It may
// reach the file's end. `way` has both rates.
fn read_each(source: Source<'_>, way: &Way, side: usize, at: usize, into: &mut [i16])
    requires source { IsSource source }
    requires way { IsWay way.now }
    requires side { side < channels_of source.kind }
    requires within { at + length into.old ≤ blocks_at source way.now }
    ensures { into.new ≡ map (λ j. resampled_sample way.now.from way.now.to source.entry.kind
        (samples_in source.entry) j side)
        (range_with_len at (length into.old)) }
{
    let mut place = place_of(way, at as u64);
    for k in 0..into.len() {
        into[k] = sample_between(source, way, place, side);
        place = moved(place, way.step, way.to);
    }
}

// Makes the sample of a side (0 is left) at a place in the file (`source`) between two of its blocks: from both
// samples, in proportion to the way between them. Behind the last block it is the last one's sample.
fn sample_between(source: Source<'_>, way: &Way, place: Place, side: usize) -> i16
    requires source { IsSource source }
    requires way { IsWay way.now }
    requires side { side < channels_of source.kind }
    requires block { place.block < blocks_of source.kind (samples_in source) }
    requires part { place.part < way.now.to }
    ensures { result ≡ interpolated (side_at source.entry.kind (samples_in source.entry) place.block side)
        (side_at source.entry.kind (samples_in source.entry)
        (min (place.block + 1) (blocks_of source.entry.kind (samples_in source.entry) - 1)) side) place.part
        way.now.to }
{
    let next = source.last.min(place.block + 1);
    let before = sample_of(source, place.block, side);
    let behind = sample_of(source, next, side);
    number_between(way.inverse, before, behind, place.part, way.to)
}

// The sample of a side (0 is left) in a block of the file, which has one sample for each channel.
fn sample_of(source: Source<'_>, block: usize, side: usize) -> i16
    requires source { IsSource source }
    requires side { side < channels_of source.kind }
    requires block { block < blocks_of source.kind (samples_in source) }
    ensures { result ≡ side_at source.entry.kind (samples_in source.entry) block side }
{
    let channels = usize::from(source.kind.channels());
    number_at(source.bytes, source.wide, block * channels + side)
}

// Sample `at` of those that stand in these bytes, of 24 bits where they are `wide`, and of 16 otherwise.
fn number_at(bytes: &[u8], wide: bool, at: usize) -> i16
    requires { at < length (samples_at wide bytes.now) }
    ensures { result ≡ slice_index_or (samples_at wide bytes.now) at (pos 0) }
{
    if wide {
        wide_at(bytes, at)
    } else {
        narrow_at(bytes, at)
    }
}

// Sample `at` of those of 24 bits that stand in these bytes; its lowest byte is dropped.
fn wide_at(bytes: &[u8], at: usize) -> i16
    requires { 3 * at + 2 < length bytes.now }
    ensures { result ≡ slice_index_or (wide_samples_in bytes.now) at (pos 0) }
{
    i16::from_le_bytes([bytes[3 * at + 1], bytes[3 * at + 2]])
}

// Sample `at` of those of 16 bits that stand in these bytes.
fn narrow_at(bytes: &[u8], at: usize) -> i16
    requires { 2 * at + 1 < length bytes.now }
    ensures { result ≡ slice_index_or (samples_from bytes.now) at (pos 0) }
{
    i16::from_le_bytes([bytes[2 * at], bytes[2 * at + 1]])
}
