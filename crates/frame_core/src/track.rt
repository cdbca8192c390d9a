// An audio file, held as samples.
ghost use Rattle.std.specs.Prelude.{◌≡◌, ◌<◌, ◌≤◌, ◌+ℤ◌, ◌*◌, ◌+◌, ◌/◌, ◌^◌, ℕ, ℤ, pos, length, map, take, drop};
ghost use Rattle.std.specs.Prelude.{int_div, nat_eq};
ghost use Rattle.std.specs.List.{range_with_len};
ghost use Rattle.std.specs.Simd.Lanes.{zip2};
ghost use Rattle.liq_base.specs.Kinds.{channels_of};
ghost use Rattle.frame_core.specs.Bytes.{samples_from};
ghost use Rattle.frame_core.specs.Held.{are_inside, samples_held};
ghost use Rattle.frame_core.specs.Sounds.{Sound, IsSound, cell_of, lefts_from, length_of, rights_from, sample_at};
ghost use Rattle.liq_base.specs.declared.memory.Kind.TheVariants.{Mono, Stereo};

use crate::Cell;
use liq_base::Kind;
use resample::Changed;
use std::marker::Model;

/// An audio file: whole blocks of signed samples, left before right, and at least one block.
#[derive(Debug, Drop)]
pub struct Track {
    kind: Kind,
    held: Held,
}

/// The samples of a file: as numbers, as the bytes of the file, or of a file at another rate.
#[derive(Debug, Drop)]
pub enum Held {
    Numbers(Vec<i16>),
    Bytes(Raw),
    OtherRate(Changed),
}

/// Samples of two bytes, the lower first: `size` bytes from byte `from` on.
#[derive(Debug, Drop)]
pub struct Raw {
    pub bytes: Vec<u8>,
    pub from: usize,
    pub size: usize,
}

impl Model for Track {
    ghost use Rattle.frame_core.specs.Sounds.{Sound, IsSound};
    ghost use Rattle.frame_core.specs.Held.{are_inside, are_of, samples_held};

    ghost Value = { Sound };

    ghost view = { λ t. record { kind = t.kind; samples = samples_held t.held } };

    ghost invariant = { λ t. IsSound (record { kind = t.kind; samples = samples_held t.held }) × are_inside t.held
        × are_of t.kind t.held };
}

impl Track {
    /// The audio file of these samples, left before right where there are two channels.
    pub fn new(kind: Kind, samples: Vec<i16>) -> Track
        requires { IsSound (record { kind = kind; samples = samples.items }) }
        ensures { result ≡ record { kind = kind; samples = samples.items } }
    {
        Track {
            kind,
            held: Held::Numbers(samples),
        }
    }

    /// The audio file whose samples stand in `size` of these bytes, from byte `from` on. Each sample has two bytes,
    /// the lower first.
    pub fn of_bytes(kind: Kind, bytes: Vec<u8>, from: usize, size: usize) -> Track
        requires inside { from + size ≤ length bytes.items }
        requires sound { IsSound (record { kind = kind; samples = samples_from (take size (drop from bytes.items)) }) }
        ensures { result ≡ record { kind = kind; samples = samples_from (take size (drop from bytes.items)) } }
    {
        Track {
            kind,
            held: Held::Bytes(Raw { bytes, from, size }),
        }
    }

    /// The audio file that a file at another rate makes, resampled where it is read.
    pub fn of_changed(changed: Changed) -> Track
        requires { IsSound (record { kind = changed.kind; samples = changed.samples }) }
        ensures { result ≡ record { kind = changed.kind; samples = changed.samples } }
    {
        Track {
            kind: changed.kind(),
            held: Held::OtherRate(changed),
        }
    }

    // How many samples the file has, those of both channels where there are two.
    fn count(&self) -> usize
        ensures count { result ≡ length self.now.samples }
        ensures few { result < 2 ^ 63 }
    {
        count_held(&self.held)
    }

    // The sample at place `at` of the file, counted from 0 over both channels where there are two.
    fn sample(&self, at: usize) -> i16
        requires { at < length self.now.samples }
        ensures { result ≡ sample_at self.now.samples at }
    {
        held_at(&self.held, at)
    }

    /// Whether the file is mono or stereo.
    pub fn kind(&self) -> Kind
        ensures { result ≡ self.now.kind }
    {
        self.kind
    }

    /// How many samples each channel of the file has, at least 1.
    pub fn samples(&self) -> u64
        ensures samples { result ≡ length_of self.now }
        ensures some { 0 < result }
    {
        let samples = self.count() as u64;
        match self.kind {
            Kind::Mono => samples,
            Kind::Stereo => samples / 2,
        }
    }

    /// The cell at sample `at` of each channel, in a source of this kind, with this title. A mono file gives its sample
    /// to both sides, and a stereo file in a mono source half the sum of its two, rounded toward zero.
    pub fn cell(&self, title: u32, at: u64, kind: Kind) -> Cell
        requires { at < length_of self.now }
        ensures { result ≡ cell_of self.now title kind at }
    {
        let first = at == 0;
        // So it is known that twice the place is a number.
        let _count = self.count();
        let at = at as usize;
        match (self.kind, kind) {
            (Kind::Mono, Kind::Mono) => Cell {
                left: self.sample(at),
                right: 0,
                first,
                title,
            },
            (Kind::Mono, Kind::Stereo) => Cell {
                left: self.sample(at),
                right: self.sample(at),
                first,
                title,
            },
            (Kind::Stereo, Kind::Mono) => Cell {
                left: half_sum(self.sample(2 * at), self.sample(2 * at + 1)),
                right: 0,
                first,
                title,
            },
            (Kind::Stereo, Kind::Stereo) => Cell {
                left: self.sample(2 * at),
                right: self.sample(2 * at + 1),
                first,
                title,
            },
        }
    }
}

impl Track {
    /// Writes the file's samples from sample `at` of each channel on, for as many cells as the slices are long. They
    /// are those that `cell` has for a source of this kind, so that a mono source gets 0 on the right.
    pub fn read(&self, at: u64, kind: Kind, left: &mut [i16], right: &mut [i16])
        requires same { length right.old ≡ length left.old }
        requires within { at + length left.old ≤ length_of self.now }
        ensures left { left.new ≡ lefts_from self.now kind at (length left.old) }
        ensures right { right.new ≡ rights_from self.now kind at (length left.old) }
    {
        match &self.held {
            Held::Numbers(samples) => read_numbers(
                self.kind,
                samples,
                at as usize,
                kind,
                left,
                right,
            ),
            Held::Bytes(raw) => read_bytes(self.kind, body_of(raw), at as usize, kind, left, right),
            Held::OtherRate(changed) => {
                read_changed(self.kind, changed, at as usize, kind, left, right);
            }
        }
    }
}

// How many samples of a file are held, those of both channels where there are two.
fn count_held(held: &Held) -> usize
    requires { are_inside held.now }
    ensures count { result ≡ length (samples_held held.now) }
    ensures few { result < 2 ^ 63 }
{
    match held {
        Held::Numbers(samples) => samples.len(),
        Held::Bytes(raw) => raw.size / 2,
        Held::OtherRate(changed) => changed.count(),
    }
}

// The sample of a file at place `at`, counted from 0 over both channels where there are two.
fn held_at(held: &Held, at: usize) -> i16
    requires inside { are_inside held.now }
    requires there { at < length (samples_held held.now) }
    ensures { result ≡ sample_at (samples_held held.now) at }
{
    match held {
        Held::Numbers(samples) => samples[at],
        Held::Bytes(raw) => number_at(body_of(raw), at),
        Held::OtherRate(changed) => changed.sample(at),
    }
}

// The part of a file's bytes that holds its samples: `size` bytes from byte `from` on.
fn body_of(raw: &Raw) -> &[u8]
    requires { raw.now.from + raw.now.size ≤ length raw.now.bytes.items }
    ensures { result.now ≡ take raw.now.size (drop raw.now.from raw.now.bytes.items) }
{
    let (_, body) = raw.bytes.split_at(raw.from);
    &body[..raw.size]
}

// The sample at place `at` of those that these bytes hold, two bytes each with the lower first.
fn number_at(bytes: &[u8], at: usize) -> i16
    requires { 2 * at + 1 < length bytes.now }
    ensures { result ≡ sample_at (samples_from bytes.now) at }
{
    i16::from_le_bytes([bytes[2 * at], bytes[2 * at + 1]])
}

// Writes the samples of a file that is held as numbers, from sample `at` of each channel on, for as many cells as the
// slices are long. The file is of kind `own`, and the source that plays it of `kind`.
fn read_numbers(
    own: Kind,
    samples: &[i16],
    at: usize,
    kind: Kind,
    left: &mut [i16],
    right: &mut [i16],
)
    requires same { length right.old ≡ length left.old }
    requires within { at + length left.old ≤ length_of (record { kind = own; samples = samples.now }) }
    ensures left { left.new ≡ lefts_from (record { kind = own; samples = samples.now }) kind at (length left.old) }
    ensures right { right.new ≡ rights_from (record { kind = own; samples = samples.now }) kind at (length left.old) }
{
    match (own, kind) {
        (Kind::Mono, Kind::Mono) => {
            left.copy_from_slice(&samples[at..at + left.len()]);
            right.fill(0);
        }
        (Kind::Mono, Kind::Stereo) => {
            let samples = &samples[at..at + left.len()];
            left.copy_from_slice(samples);
            right.copy_from_slice(samples);
        }
        (Kind::Stereo, Kind::Mono) => {
            halve_pairs(samples, at, left);
            right.fill(0);
        }
        (Kind::Stereo, Kind::Stereo) => part_pairs(samples, at, left, right),
    }
}

// Writes the samples of a file that is held as its bytes, from sample `at` of each channel on, for as many cells as
// the slices are long. The file is of kind `own`, and the source that plays it of `kind`.
fn read_bytes(own: Kind, bytes: &[u8], at: usize, kind: Kind, left: &mut [i16], right: &mut [i16])
    requires same { length right.old ≡ length left.old }
    requires within { 2 * channels_of own * (at + length left.old) ≤ length bytes.now }
    ensures left { left.new
        ≡ lefts_from (record { kind = own; samples = samples_from bytes.now }) kind at (length left.old) }
    ensures right { right.new
        ≡ rights_from (record { kind = own; samples = samples_from bytes.now }) kind at (length left.old) }
{
    match (own, kind) {
        (Kind::Mono, Kind::Mono) => {
            read_singles(bytes, at, left);
            right.fill(0);
        }
        (Kind::Mono, Kind::Stereo) => {
            read_singles(bytes, at, left);
            read_singles(bytes, at, right);
        }
        (Kind::Stereo, Kind::Mono) => {
            read_halves(bytes, at, left);
            right.fill(0);
        }
        (Kind::Stereo, Kind::Stereo) => read_pairs(bytes, at, left, right),
    }
}

// Writes the samples of a file at another rate, from sample `at` of each channel on, for as many cells as the slices
// are long. The file is of kind `own`, and the source that plays it of `kind`. For a stereo file in a mono source,
// `right` holds the file's right side until the halves are made.
fn read_changed(
    own: Kind,
    changed: &Changed,
    at: usize,
    kind: Kind,
    left: &mut [i16],
    right: &mut [i16],
)
    requires own { changed.now.kind ≡ own }
    requires same { length right.old ≡ length left.old }
    requires within { at + length left.old ≤ length changed.now.samples / channels_of changed.now.kind }
    ensures left { left.new
        ≡ lefts_from (record { kind = own; samples = changed.now.samples }) kind at (length left.old) }
    ensures right { right.new
        ≡ rights_from (record { kind = own; samples = changed.now.samples }) kind at (length left.old) }
{
    match (own, kind) {
        (Kind::Mono, Kind::Mono) => {
            changed.read(at, 0, left);
            right.fill(0);
        }
        (Kind::Mono, Kind::Stereo) => {
            changed.read(at, 0, left);
            right.copy_from_slice(left);
        }
        (Kind::Stereo, Kind::Mono) => {
            changed.read(at, 0, left);
            changed.read(at, 1, right);
            halve_sides(left, right);
            right.fill(0);
        }
        (Kind::Stereo, Kind::Stereo) => {
            changed.read(at, 0, left);
            changed.read(at, 1, right);
        }
    }
}

// Puts half the sum of each left sample and the right one beside it in the place of the left one: stereo becomes
// mono.
fn halve_sides(left: &mut [i16], right: &[i16])
    requires { length right.now ≡ length left.old }
    ensures { left.new ≡ zip2 (λ l r. int_div (l +ℤ r) (pos 2)) left.old right.now }
{
    for j in 0..left.len() {
        left[j] = half_sum(left[j], right[j]);
    }
}

// Writes the samples that these bytes hold, from sample `at` on, as many as the slice is long.
fn read_singles(bytes: &[u8], at: usize, into: &mut [i16])
    requires { 2 * (at + length into.old) ≤ length bytes.now }
    ensures { into.new ≡ map (sample_at (samples_from bytes.now)) (range_with_len at (length into.old)) }
{
    for j in 0..into.len() {
        into[j] = number_at(bytes, at + j);
    }
}

// Writes the samples of the stereo blocks (a left and a right sample) that these bytes hold, from block `at` on, each
// to its side.
fn read_pairs(bytes: &[u8], at: usize, left: &mut [i16], right: &mut [i16])
    requires same { length right.old ≡ length left.old }
    requires within { 4 * (at + length left.old) ≤ length bytes.now }
    ensures left { left.new
        ≡ lefts_from (record { kind = Stereo; samples = samples_from bytes.now }) Stereo at (length left.old) }
    ensures right { right.new
        ≡ rights_from (record { kind = Stereo; samples = samples_from bytes.now }) Stereo at (length left.old) }
{
    for j in 0..left.len() {
        let place = 2 * (at + j);
        left[j] = number_at(bytes, place);
        right[j] = number_at(bytes, place + 1);
    }
}

// Writes half the sum of each stereo block (a left and a right sample) that these bytes hold, from block `at` on.
fn read_halves(bytes: &[u8], at: usize, halves: &mut [i16])
    requires { 4 * (at + length halves.old) ≤ length bytes.now }
    ensures { halves.new
        ≡ lefts_from (record { kind = Stereo; samples = samples_from bytes.now }) Mono at (length halves.old) }
{
    for j in 0..halves.len() {
        let place = 2 * (at + j);
        halves[j] = half_sum(number_at(bytes, place), number_at(bytes, place + 1));
    }
}

// Writes the samples of stereo blocks (a left and a right sample), from block `at` on, each to its side.
fn part_pairs(samples: &[i16], at: usize, left: &mut [i16], right: &mut [i16])
    requires same { length right.old ≡ length left.old }
    requires within { 2 * (at + length left.old) ≤ length samples.now }
    ensures left { left.new ≡ lefts_from (record { kind = Stereo; samples = samples.now }) Stereo at (length left.old) }
    ensures right { right.new ≡ rights_from (record {
      kind = Stereo;
      samples = samples.now;
    }) Stereo at (length left.old) }
{
    for j in 0..left.len() {
        let place = 2 * (at + j);
        left[j] = samples[place];
        right[j] = samples[place + 1];
    }
}

// Writes half the sum of each stereo block (a left and a right sample), from block `at` on.
fn halve_pairs(samples: &[i16], at: usize, halves: &mut [i16])
    requires { 2 * (at + length halves.old) ≤ length samples.now }
    ensures { halves.new ≡ lefts_from (record { kind = Stereo; samples = samples.now }) Mono at (length halves.old) }
{
    for j in 0..halves.len() {
        let place = 2 * (at + j);
        halves[j] = half_sum(samples[place], samples[place + 1]);
    }
}

// The mono sample of a stereo block: half the sum of its two samples, rounded toward zero.
fn half_sum(left: i16, right: i16) -> i16
    ensures { result ≡ int_div (left +ℤ right) (pos 2) }
{
    let sum = i32::from(left) + i32::from(right);
    (sum / 2) as i16
}
