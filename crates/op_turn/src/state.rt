// What a rotate or a random keeps from instant to instant.
ghost use Rattle.std.specs.Prelude.{◌≡◌, ◌<◌, ◌∷◌, List, [], true, length, is_some, IfSome};
ghost use Rattle.std.specs.List.{list_any};
ghost use Rattle.frame_core.specs.Slots.{Slot};
ghost use Rattle.op_turn.specs.declared.turn.Turn.{Turn as TheTurn};
ghost use Rattle.op_turn.specs.Choices.{used_by};
ghost use Rattle.op_turn.specs.Turns.{offered, Past, past_given, past_of, StandsFor};

use crate::choice::{drawn, picked, rotated, use_word, words_of};
use crate::{Pick, Turn};
use frame_core::Cell;
use op_select::plays_on;
use seed_words::SeedWords;
use std::marker::Model;

/// A rotate or a random: the child that it used when it last gave, and the words of its seed that it did not use up.
#[derive(Debug, Drop)]
pub struct TurnState {
    children: u32,
    last: Option<u32>,

    // A rotate has none.
    words: Option<SeedWords>,
}

impl Model for TurnState {
    ghost use Rattle.std.specs.Prelude.{◌<◌, ◌^◌, IfSome};
    ghost use Rattle.op_turn.specs.Turns.{Turning};

    ghost Value = { Turning };

    ghost view = { λ s. record { children = s.children; last = s.last; words = s.words } };

    ghost invariant = { λ s. (s.children < 2 ^ 32) × IfSome s.last (λ last. last < s.children) };
}

impl TurnState {
    /// A rotate or a random over so many children that gave nothing yet: no child was used, and no word of the seed.
    pub fn new(turn: Turn, children: u32) -> TurnState
        ensures children { result.children ≡ children }
        ensures stands { StandsFor turn (past_of turn []) result }
    {
        TurnState {
            children,
            last: None,
            words: words_of(turn),
        }
    }

    /// What a rotate or a random offers at this instant, from what each child offers: the child that is used, and its
    /// cell. `None` where no child offers. The rules are in `docs/streams.md`.
    pub fn offer(&self, offers: &[Option<Cell>]) -> Option<Pick>
        requires { length offers.now ≡ self.now.children }
        ensures offered { (turn : TheTurn) (past : Past) → StandsFor turn past self.now
            → result ≡ offered turn past offers.now }
        ensures child { IfSome result (λ pick. pick.child < self.now.children) }
        ensures some { is_some result ≡ list_any is_some offers.now }
    {
        picked(offers, self.last, self.used(offers))
    }

    /// Goes on by one instant at which the node gave a cell, from what its children offered: notes the child used, and
    /// uses up a word where it was newly chosen.
    pub fn advance(&mut self, offers: &[Option<Cell>])
        requires offers { length offers.now ≡ self.old.children }
        requires some { list_any is_some offers.now ≡ true }
        ensures children { self.new.children ≡ self.old.children }
        ensures stands { (turn : TheTurn) (gave : List (List Slot)) → StandsFor turn (past_of turn gave) self.old
            → StandsFor turn (past_of turn (offers.now ∷ gave)) self.new }
    {
        if let Some(pick) = self.offer(offers) {
            self.give(pick);
        }
    }

    /// Goes on by one instant at which the node gave the cell of `pick`, as it had offered: notes its child as the one
    /// used last. A cell that is marked as the first of a track tells that its child was newly chosen, and uses up a
    /// word of the seed.
    pub fn give(&mut self, pick: Pick)
        requires { pick.child < self.old.children }
        ensures children { self.new.children ≡ self.old.children }
        ensures stands { (turn : TheTurn) (past : Past) → StandsFor turn past self.old
            → StandsFor turn (past_given past pick) self.new }
    {
        let is_chosen = pick.cell.first;
        self.last = Some(pick.child);
        if is_chosen {
            use_word(&mut self.words);
        }
    }

    // The child that is played at this instant, by what each child offers: the one used last while it goes on with its
    // track, or else a newly chosen one. `None` where none offers. A rotate is told by having no words of a seed.
    fn used(&self, offers: &[Option<Cell>]) -> Option<u32>
        requires { length offers.now ≡ self.now.children }
        ensures { result ≡ used_by self.now.words self.now.last offers.now }
    {
        if plays_on(offers, self.last) {
            return self.last;
        }
        match &self.words {
            None => rotated(offers, self.last),
            Some(words) => drawn(offers, words.peek()),
        }
    }
}
