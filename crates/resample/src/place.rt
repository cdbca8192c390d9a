// Where a sample of the new rate stands in the file.
ghost use Rattle.std.specs.Prelude.{◌≡◌, ◌<◌, ◌≤◌, ◌+◌, ◌*◌, ◌^◌};
ghost use Rattle.resample.specs.Changes.{IsWay};
ghost use Rattle.resample.specs.Places.{reached};
ghost use Rattle.resample.specs.Resampled.{AreRates};

use crate::midway::inverse_of;
use liq_base::limits::MAX_RATE;

/// A place in the file. The way from a block to the next one has as many parts as a second has samples at the other
/// rate.
#[derive(Clone, Copy)]
pub struct Place {
    /// The block before it, counted from 0.
    pub block: usize,

    /// How many parts it lies behind that block, fewer than all.
    pub part: u32,
}

/// What is needed to read a file of rate `from` at rate `to`, in samples a second. `step` is how far a sample at rate
/// `to` lies behind the one before it, in the file.
#[derive(Clone, Copy)]
pub struct Way {
    pub from: u32,
    pub to: u32,
    pub step: Place,

    /// What takes the place of a division by `to`: a product with this number.
    pub inverse: u64,
    /// What takes the place of a division of eight numbers at once by `to`.
    pub by_lanes: u64,
}

/// The numbers that go with a change from rate `from` to rate `to`, in samples a second: the step from sample to
/// sample in the file, and what takes the place of divisions by `to`.
pub fn way_of(from: u32, to: u32) -> Way
    requires { AreRates from to }
    ensures way { IsWay result }
    ensures from { result.from ≡ from }
    ensures to { result.to ≡ to }
{
    Way {
        from,
        to,
        step: step_of(from, to),
        inverse: inverse_of(to),
        by_lanes: sample_kernels::inverse_of(to),
    }
}

/// The place in the file of sample `number` at the new rate, counted from 0: the block before it, and how far it lies
/// behind that one. `way` has both rates.
pub fn place_of(way: &Way, number: u64) -> Place
    requires some { 0 < way.now.to }
    requires room { number * way.now.from < 2 ^ 64 }
    ensures whole { reached way.now.to result ≡ number * way.now.from }
    ensures part { result.part < way.now.to }
{
    let parts = number * u64::from(way.from);
    let to = u64::from(way.to);
    Place {
        block: (parts / to) as usize,
        part: (parts % to) as u32,
    }
}

/// How far a sample at rate `to` lies behind the one before it, in a file of rate `from`: so many blocks, and so many
/// of the `to` parts of a block's way.
pub fn step_of(from: u32, to: u32) -> Place
    requires { 0 < to }
    ensures whole { reached to result ≡ from }
    ensures part { result.part < to }
    ensures block { result.block ≤ from }
{
    Place {
        block: (from / to) as usize,
        part: from % to,
    }
}

/// The place in the file one `step` behind `place`: the sum of both, where the way from block to block has `to` parts.
pub fn moved(place: Place, step: Place, to: u32) -> Place
    requires part { place.part < to }
    requires step { step.part < to }
    requires rate { to ≤ MAX_RATE }
    requires room { place.block + step.block + 1 < 2 ^ 64 }
    ensures whole { reached to result ≡ reached to place + reached to step }
    ensures part { result.part < to }
{
    let block = place.block + step.block;
    let part = place.part + step.part;
    if part < to {
        return Place { block, part };
    }
    Place {
        block: block + 1,
        part: part - to,
    }
}
