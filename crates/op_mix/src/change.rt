// One cell, a pair of samples, changed by a node.
ghost use Rattle.std.specs.Prelude.{◌≡◌};
ghost use Rattle.stream_meaning.specs.Arithmetic.{amplified, cells_of, doubled, halved};
ghost use Rattle.op_mix.specs.Mixings.{front_of};

use fixed_text::Decimal;
use frame_core::Cell;
use sample_kernels::{halves, scale};

/// The first cell (a pair of samples) among what the children offer at an instant; `None` where none offers.
pub fn first_cell(slots: &[Option<Cell>]) -> Option<Cell>
    ensures { result ≡ front_of (cells_of slots.now) }
{
    for slot in slots {
        if slot.is_some() {
            return *slot;
        }
    }
    None
}

/// A cell with both samples multiplied by a factor. Its flag for a new track and its title stay.
pub fn amplified(cell: Cell, factor: Decimal) -> Cell
    ensures { result ≡ amplified factor.millionths cell }
{
    let mut samples = [0; 2];
    scale(factor, &[cell.left, cell.right], &mut samples);
    let [left, right] = samples;
    Cell {
        left,
        right,
        first: cell.first,
        title: cell.title,
    }
}

/// The mono cell of a stereo one: its left sample is half the sum of both, and its right one is 0.
pub fn halved(cell: Cell) -> Cell
    ensures { result ≡ halved cell }
{
    let mut samples = [0];
    halves(&[cell.left], &[cell.right], &mut samples);
    let [left] = samples;
    Cell {
        left,
        right: 0,
        first: cell.first,
        title: cell.title,
    }
}

/// The stereo cell of a mono one: its left sample stands on both sides.
pub fn doubled(cell: Cell) -> Cell
    ensures { result ≡ doubled cell }
{
    Cell {
        right: cell.left,
        ..cell
    }
}
