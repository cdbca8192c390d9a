// Room for the sums of a run.
ghost use Rattle.std.specs.Prelude.{◌≡◌, ◌<◌, ◌≤◌, pos, length, replicate};
ghost use Rattle.op_mix.specs.Stretches.{levels_of, many_give, offers_in, samples_of, summed_lanes};

use crate::lane::sum_lane;
use liq_base::Memory;
use std::alloc::Global;
use std::marker::Model;
use stream_meaning::Part;

/// The most instants of a run at once.
pub const MAX_STRETCH: u32 = 2048;

/// Room for a sum at each instant of a run, and for how many samples it has. Contracts see for how many instants, which
/// is `MAX_STRETCH`.
#[derive(Drop)]
pub struct Sums {
    sums: Vec<i32>,
    counts: Vec<u16>,
}

impl Model for Sums {
    ghost use Rattle.std.specs.Prelude.{◌≡◌, ℕ, length};

    ghost Value = { ℕ };

    ghost view = { λ s. length s.sums.items };

    ghost invariant = { λ s. (length s.sums.items ≡ 2048) × (length s.counts.items ≡ 2048) };
}

impl Sums {
    /// Reserves room for the sums over any run of instants, of at most 2048. No later call takes memory.
    pub fn new(alloc: Global) -> Result<Sums, Memory> {
        let sums = vec![in alloc; 0; MAX_STRETCH as usize]?;
        let counts = vec![in alloc; 0; MAX_STRETCH as usize]?;
        Ok(Sums { sums, counts })
    }

    /// Writes one side of the samples of a sum over a run of instants: at each, the sum, or with `normalize` the mean,
    /// of the children that offer. `parts` tells which nodes offer, and `lanes` has the samples of all nodes. Where no
    /// child offers, nothing is written.
    pub fn sum(
        &mut self,
        children: &[u32],
        parts: &[Part],
        lanes: &[Vec<i16>],
        normalize: bool,
        into: &mut [i16],
    )
        requires few { length children.now ≤ 65535 }
        requires short { length into.old ≤ 2048 }
        ensures sum { 0 < many_give (offers_in parts.now) children.now
            → into.new ≡ levels_of normalize (many_give (offers_in parts.now) children.now)
            (summed_lanes (offers_in parts.now) (λ child. samples_of lanes.now child (length into.old))
            (replicate (length into.old) (pos 0)) children.now) }
    {
        sum_lane(
            children,
            parts,
            lanes,
            normalize,
            &mut self.sums,
            &mut self.counts,
            into,
        );
    }
}
