// What a selection keeps from instant to instant.
ghost use Rattle.std.specs.Prelude.{◌≡◌, ◌<◌, ◌∷◌, List, [], ℕ, length, Some, None, IfSome};
ghost use Rattle.op_select.specs.Selection.{last_used, offered, Selection};

use crate::pick::{pick_first, pick_turn};
use crate::{Picked, Rule};
use frame_core::Cell;
use std::marker::Model;

/// A fallback, a switch or a sequence: its rule, and the child that it used when it last gave.
#[derive(Debug, Drop)]
pub struct SelectState {
    rule: Rule,
    children: u32,
    last: Option<u32>,
}

impl Model for SelectState {
    ghost use Rattle.std.specs.Prelude.{◌<◌, ◌^◌};
    ghost use Rattle.op_select.specs.Selection.{Selection};

    ghost Value = { Selection };

    ghost view = { λ s. record { rule = s.rule; children = s.children; last = s.last } };

    ghost invariant = { λ s. s.children < 2 ^ 32 };
}

impl SelectState {
    /// A fallback, a switch or a sequence of this rule over so many children, before it used any.
    pub fn new(rule: Rule, children: u32) -> SelectState
        ensures { result ≡ record { rule = rule; children = children; last = last_used [] } }
    {
        SelectState {
            rule,
            children,
            last: None,
        }
    }

    /// The child that is used at this instant and the cell that is offered with it, by what each child offers and
    /// whether it is eligible. The cell begins a track also where another child was used last. `None` where no child is
    /// used or it offers nothing. The rules are in `docs/streams.md`.
    pub fn offer(&self, offers: &[Option<Cell>], eligible: &[bool]) -> Option<Picked>
        requires offers { length offers.now ≡ self.now.children }
        requires eligible { length eligible.now ≡ self.now.children }
        ensures offered { result ≡ offered self.now offers.now eligible.now }
        ensures child { IfSome result (λ picked. picked.child < self.now.children) }
    {
        let child = match self.rule {
            Rule::First { sensitive } => pick_first(sensitive, offers, eligible, self.last)?,
            Rule::Turns => pick_turn(offers, self.last)?,
        };
        let cell = (*offers.get(child as usize)?)?;
        let first = cell.first || self.last != Some(child);
        Some(Picked {
            child,
            cell: Cell { first, ..cell },
        })
    }

    /// The child that was used last; `None` where none was.
    pub fn last(&self) -> Option<u32>
        ensures { result ≡ self.now.last }
    {
        self.last
    }

    /// Goes on by one instant, at which this child was used.
    pub fn advance(&mut self, child: u32)
        requires { child < self.old.children }
        ensures advanced { self.new ≡ record self.old { last = Some child } }
        ensures stands { (used : List ℕ) → self.old.last ≡ last_used used → self.new.last ≡ last_used (child ∷ used) }
    {
        self.last = Some(child);
    }
}
