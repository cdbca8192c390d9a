// What a node makes of the slots of its children.
ghost use Rattle.std.specs.Prelude.{◌≡◌, ◌≤◌, length};
ghost use Rattle.stream_meaning.specs.Arithmetic.{mix_slot};
ghost use Rattle.op_mix.specs.Mixings.{mixing_of};

use crate::change::{amplified, doubled, first_cell, halved};
use crate::sum::summed;
use fixed_text::Decimal;
use frame_core::Cell;

/// What a node makes of the slots of its children at an instant.
#[derive(Clone, Copy, Debug, PartialEq, Eq)]
pub enum Mixer {
    /// The sum of the cells that are offered, cut to the range of a sample, or with `normalize` their mean.
    Adds { normalize: bool },

    /// The first cell that is offered, each sample times this factor.
    Scales { factor: Decimal },

    /// The first cell that is offered, in mono: half the sum of its sides.
    Halves,

    /// The first cell that is offered, with its left sample on both sides.
    Doubles,

    /// The first cell that is offered.
    Passes,
}

impl Mixer {
    /// What a mixing node offers at an instant, from what its children offer, in their order: a sum or mean of all, or
    /// a change of the first one. It takes no memory. `None` where no child offers.
    pub fn slot(&self, slots: &[Option<Cell>]) -> Option<Cell>
        requires { length slots.now ≤ 65535 }
        ensures { result ≡ mix_slot (mixing_of self.now) slots.now }
    {
        match self {
            Mixer::Adds { normalize } => summed(slots, *normalize),
            Mixer::Scales { factor } => Some(amplified(first_cell(slots)?, *factor)),
            Mixer::Halves => Some(halved(first_cell(slots)?)),
            Mixer::Doubles => Some(doubled(first_cell(slots)?)),
            Mixer::Passes => first_cell(slots),
        }
    }
}
