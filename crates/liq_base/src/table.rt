// A table with a place for each token.
ghost use Rattle.std.specs.Prelude.{◌≡◌, ◌<◌, ◌+◌, ℕ, Some, None, IfOk, OnErr, OnOk, cond, nat_eq, length, get_or};
ghost use Rattle.liq_base.specs.At.{at_token};

use crate::Memory;
use std::alloc::Global;
use std::marker::Model;

/// Values by the indexes of tokens, with a place of four bytes for each token up to the last that has a value.
/// Contracts see the list of these places, each with its value.
#[derive(Drop)]
pub struct TokenTable<T> {
    // For each token 0 where it has no value, and otherwise how many values there were with its own: `place` names
    // `values[place - 1]`.
    places: Vec<u32>,

    // In the order in which they were put, also those in whose place a later one stands.
    values: Vec<T>,
}

impl<T> Model for TokenTable<T> {
    ghost use Rattle.std.specs.Prelude.{ℕ, List, Option, map, get_or, ◌≤◌, length};
    ghost use Rattle.liq_base.specs.At.{value_at};

    ghost Value = { List (Option T) };

    ghost view = { λ t. map (value_at t.values.items) t.places.items };

    ghost invariant = { λ t. (k : ℕ) → get_or t.places.items k 0 ≤ length t.values.items };
}

impl<T: Copy> TokenTable<T> {
    /// An empty table of values by token indexes: no token has a value. It takes no memory.
    pub fn new(alloc: Global) -> TokenTable<T>
        ensures { (t : ℕ) → at_token t result ≡ None }
    {
        TokenTable {
            places: Vec::new(alloc),
            values: Vec::new(alloc),
        }
    }

    /// The value that the table has for the token with index `at`; `None` where it has none. A place holds one more
    /// than the index of its value, and 0 where there is none.
    pub fn get(&self, at: u32) -> Option<T>
        ensures { result ≡ at_token at self.now }
    {
        let place = *self.places.get(at as usize)?;
        let before = place.checked_sub(1)?;
        self.values.get(before as usize).copied()
    }

    /// Gives the token with index `at` this value in the table, in place of any that it had. Where memory runs out no
    /// value changes.
    pub fn put(&mut self, at: u32, value: T) -> Result<(), Memory>
        ensures put { OnOk result ((t : ℕ) → at_token t self.new
            ≡ cond (nat_eq at t) (Some value) (at_token t self.old)) }
        ensures err { OnErr result ((t : ℕ) → at_token t self.new ≡ at_token t self.old) }
    {
        self.values.reserve(1)?;
        reach(&mut self.places, at)?;
        let place = next_place(self.values.len())?;
        self.values.push_reserved(value);
        self.places[at as usize] = place;
        Ok(())
    }
}

// The number that a token's place gets for a value that is put behind `before` others: values count from 1. Where a
// `u32` cannot count so many, memory is refused.
fn next_place(before: usize) -> Result<u32, Memory>
    ensures next { IfOk result (λ place. place ≡ before + 1) }
{
    let Ok(before) = u32::try_from(before) else {
        return Err(Memory);
    };
    before.checked_add(1).ok_or(Memory)
}

// Lengthens the list of places, so that the token with index `at` has one. A new place is 0, which names no value.
// Where memory runs out, some are made.
fn reach(places: &mut Vec<u32>, at: u32) -> Result<(), Memory>
    ensures there { OnOk result (at < length places.new.items) }
    ensures same { (t : ℕ) → get_or places.new.items t 0 ≡ get_or places.old.items t 0 }
{
    let index = at as usize;
    if places.len() <= index {
        places.reserve(index + 1 - places.len())?;
    }
    while places.len() <= index {
        places.push(0)?;
    }
    Ok(())
}
