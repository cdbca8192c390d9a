// The sum of cells.
ghost use Rattle.std.specs.Prelude.{◌≡◌, ◌+◌, ◌+ℤ◌, ◌<◌, ◌≤◌, length};
ghost use Rattle.stream_meaning.specs.Arithmetic.{cells_of, levelled, summed_slot};
ghost use Rattle.sample_kernels.specs.Samples.{IsSumOf};

use crate::change::first_cell;
use frame_core::Cell;
use sample_kernels::{clamp_all, divide};

/// The cell of a sum at an instant: the sum, or with `normalize` the mean, of the cells that the children offer, with
/// the track flag and the title of the first. `None` where no child offers.
pub fn summed(slots: &[Option<Cell>], normalize: bool) -> Option<Cell>
    requires { length slots.now ≤ 65535 }
    ensures { result ≡ summed_slot normalize (cells_of slots.now) }
{
    let front = first_cell(slots)?;
    let mut left: i32 = 0;
    let mut right: i32 = 0;
    let mut parts: u16 = 0;
    for slot in slots {
        let Some(cell) = slot else { continue };
        left = added(left, parts, cell.left);
        right = added(right, parts, cell.right);
        parts += 1;
    }
    Some(Cell {
        left: level(left, parts, normalize),
        right: level(right, parts, normalize),
        first: front.first,
        title: front.title,
    })
}

/// Adds one more sample to a sum of `parts` samples. The 32 bits hold it, as a node has at most 65535 children.
pub fn added(sum: i32, parts: u16, sample: i16) -> i32
    requires few { parts < 65535 }
    requires sum { IsSumOf parts sum }
    ensures is { result ≡ sum +ℤ sample }
    ensures fits { IsSumOf (parts + 1) result }
{
    sum + i32::from(sample)
}

// Makes one sample of the sum of `parts` samples: with `normalize` their mean, or the sum cut to the range of a sample.
fn level(sum: i32, parts: u16, normalize: bool) -> i16
    requires some { 0 < parts }
    requires sum { IsSumOf parts sum }
    ensures { result ≡ levelled normalize parts sum }
{
    let mut sample = [0];
    if normalize {
        divide(&[sum], &[parts], &mut sample);
    } else {
        clamp_all(&[sum], &mut sample);
    }
    let [level] = sample;
    level
}
