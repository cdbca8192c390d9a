// What a node makes of the samples of its children over a run.
ghost use Rattle.std.specs.Prelude.{◌≡◌, ◌<◌, ◌≤◌, ℕ, pos, Some, length, map, replicate, All};
ghost use Rattle.frame_core.specs.Slots.{Slot};
ghost use Rattle.op_leaf.specs.Lanes.{IsLane};
ghost use Rattle.sample_kernels.specs.Samples.{IsSumOf};
ghost use Rattle.stream_meaning.specs.Arithmetic.{mix_slot};
ghost use Rattle.op_mix.specs.Mixings.{mixing_of};
ghost use Rattle.op_mix.specs.Stretches.{AreHeard, changed_left, changed_right, first_that_gives, levels_of, many_give};
ghost use Rattle.op_mix.specs.Stretches.{offers_in, samples_of, summed_lanes};

use crate::before::Before;
use crate::mixer::Mixer;
use crate::room::Sums;
use crate::walk::{first_that_offers, offers, samples_of};
use sample_kernels::{add_into, clamp_all, divide, halves, scale};
use stream_meaning::Part;

impl Mixer {
    /// Writes the samples of a node over a run of instants to `left` and `right`. `before` has what the nodes before it
    /// gave, its children among them. A child counts if it offers a cell; where none does, nothing is written. `sums`
    /// is room for the work of a sum.
    pub fn run(
        &self,
        children: &[u32],
        before: &Before<'_>,
        sums: &mut Sums,
        left: &mut [i16],
        right: &mut [i16],
    )
        requires few { length children.now ≤ 65535 }
        requires same { length right.old ≡ length left.old }
        requires short { length left.old ≤ 2048 }
        ensures lane { (slots : ℕ → ℕ → Slot)
            → AreHeard slots (offers_in before.now.parts.now)
            (λ child. samples_of before.now.left.now child (length left.old))
            (λ child. samples_of before.now.right.now child (length left.old)) (length left.old) children.now
            → 0 < many_give (offers_in before.now.parts.now) children.now
            → IsLane (λ j. mix_slot (mixing_of self.now) (map (slots j) children.now)) (length left.old) left.new
            right.new }
    {
        match self {
            Mixer::Adds { normalize } => {
                sums.sum(children, before.parts, before.left, *normalize, left);
                sums.sum(children, before.parts, before.right, *normalize, right);
            }
            _ => self.change_first(children, before, left, right),
        }
    }

    // Writes the samples, over a run of instants, of a node that changes one source: the first of its children that
    // offers. `before` has what all nodes before it gave. Where no child offers, nothing is written.
    fn change_first(
        &self,
        children: &[u32],
        before: &Before<'_>,
        left: &mut [i16],
        right: &mut [i16],
    )
        requires same { length right.old ≡ length left.old }
        requires short { length left.old ≤ 2048 }
        ensures left { (first : ℕ) → first_that_gives (offers_in before.now.parts.now) children.now ≡ Some first
            → left.new ≡ changed_left (mixing_of self.now) (samples_of before.now.left.now first (length left.old))
            (samples_of before.now.right.now first (length left.old)) }
        ensures right { (first : ℕ) → first_that_gives (offers_in before.now.parts.now) children.now ≡ Some first
            → right.new ≡ changed_right (mixing_of self.now) (samples_of before.now.left.now first (length left.old))
            (samples_of before.now.right.now first (length left.old)) }
    {
        let Some(first) = first_that_offers(children, before.parts) else {
            return;
        };
        let count = left.len();
        let from_left = samples_of(before.left, first, count);
        let from_right = samples_of(before.right, first, count);
        self.change(from_left, from_right, left, right);
    }

    // Writes the samples of a node over a run to `left` and `right`, from both sides of its one source: times a factor,
    // the mean of both sides, the left ones on both, or as they are. The mean is mono: it stands on the left, with
    // zeros on the right.
    fn change(&self, from_left: &[i16], from_right: &[i16], left: &mut [i16], right: &mut [i16])
        requires from { length from_right.now ≡ length from_left.now }
        requires same { length left.old ≡ length from_left.now }
        requires right { length right.old ≡ length from_left.now }
        ensures left { left.new ≡ changed_left (mixing_of self.now) from_left.now from_right.now }
        ensures right { right.new ≡ changed_right (mixing_of self.now) from_left.now from_right.now }
    {
        match self {
            Mixer::Scales { factor } => {
                scale(*factor, from_left, left);
                scale(*factor, from_right, right);
            }
            Mixer::Halves => {
                halves(from_left, from_right, left);
                right.fill(0);
            }
            Mixer::Doubles => {
                left.copy_from_slice(from_left);
                right.copy_from_slice(from_left);
            }
            _ => {
                left.copy_from_slice(from_left);
                right.copy_from_slice(from_right);
            }
        }
    }
}

/// Writes one side of the samples of a sum over a run of instants: at each, the sum or mean of the children that offer.
/// `parts` tells which nodes offer, `lanes` has the samples of all nodes, and `sums` and `counts` are room. Where no
/// child offers, nothing is written.
pub fn sum_lane(
    children: &[u32],
    parts: &[Part],
    lanes: &[Vec<i16>],
    normalize: bool,
    sums: &mut [i32],
    counts: &mut [u16],
    into: &mut [i16],
)
    requires few { length children.now ≤ 65535 }
    requires short { length into.old ≤ 2048 }
    requires sums { length into.old ≤ length sums.old }
    requires counts { length into.old ≤ length counts.old }
    ensures sum { 0 < many_give (offers_in parts.now) children.now
        → into.new ≡ levels_of normalize (many_give (offers_in parts.now) children.now)
        (summed_lanes (offers_in parts.now) (λ child. samples_of lanes.now child (length into.old))
        (replicate (length into.old) (pos 0)) children.now) }
{
    let (sums, _) = sums.split_at_mut(into.len());
    let (counts, _) = counts.split_at_mut(into.len());
    let count = add_all(children, parts, lanes, sums);
    if count > 0 {
        level_all(sums, count, normalize, counts, into);
    }
}

// Writes to `sums`, for each instant of a run, the sum of the samples of the children that offer, and answers how many
// of them there are. `parts` tells which nodes offer, and `lanes` has the samples of all nodes.
fn add_all(children: &[u32], parts: &[Part], lanes: &[Vec<i16>], sums: &mut [i32]) -> u16
    requires few { length children.now ≤ 65535 }
    requires short { length sums.old ≤ 2048 }
    ensures count { result ≡ many_give (offers_in parts.now) children.now }
    ensures sums { sums.new ≡ summed_lanes (offers_in parts.now) (λ child. samples_of lanes.now child (length sums.old))
        (replicate (length sums.old) (pos 0)) children.now }
    ensures fit { All (IsSumOf result) sums.new }
{
    sums.fill(0);
    let mut count: u16 = 0;
    for child in children {
        if !offers(parts, *child) {
            continue;
        }
        let lane = samples_of(lanes, *child, sums.len());
        add_into(sums, lane);
        count += 1;
    }
    count
}

// Makes samples of the sums over a run: with `normalize` the mean of the `parts` children that were added, or the sum
// cut to the range of a sample. `counts` is room for the divisor of each sum.
fn level_all(sums: &[i32], parts: u16, normalize: bool, counts: &mut [u16], into: &mut [i16])
    requires counts { length counts.old ≡ length sums.now }
    requires same { length into.old ≡ length sums.now }
    requires some { 0 < parts }
    requires sums { All (IsSumOf parts) sums.now }
    ensures { into.new ≡ levels_of normalize parts sums.now }
{
    if normalize {
        counts.fill(parts);
        divide(sums, counts, into);
    } else {
        clamp_all(sums, into);
    }
}
