//! Sets of numbers.
ghost use Rattle.std.specs.Prelude.{◌≡◌, ◌+◌, ◌<◌, ◌^◌, ◌++◌, ◌∷◌, [], length, position, false, nat_eq, IfSome, OnOk};
ghost use Rattle.std.specs.List.{list_any};

use indexmap::IndexSet;
use std::alloc::{AllocError, Global};
use std::marker::Model;

/// Numbers, each once, in the order of adding. The first 16 are found by walking them, the others by their hash.
#[derive(Drop)]
pub struct NumberSet {
    first: Vec<u64>,
    others: IndexSet<u64>,
}

impl Model for NumberSet {
    ghost use Rattle.std.specs.Prelude.{ℕ, List, ◌++◌, ◌≤◌, ◌<◌, ◌^◌, length};

    ghost Value = { List ℕ };

    ghost view = { λ s. s.first.items ++ s.others.keys };

    ghost invariant = { λ s. (length s.first.items ≤ 16) × (length s.others.keys < 2 ^ 32) };
}

impl NumberSet {
    /// No numbers.
    pub fn new(alloc: Global) -> NumberSet
        ensures { result ≡ [] }
    {
        NumberSet {
            first: Vec::new(alloc),
            others: IndexSet::new(alloc),
        }
    }

    /// Whether a number is there.
    pub fn contains(&self, number: u64) -> bool
        ensures { result ≡ list_any (nat_eq number) self.now }
    {
        self.first.contains(&number) || self.others.contains(&number)
    }

    /// The place of a number, where it is there.
    pub fn find(&self, number: u64) -> Option<usize>
        ensures place { result ≡ position (nat_eq number) self.now }
        ensures few { IfSome result (λ k. k < 2 ^ 33) }
    {
        match place_of(&self.first, number) {
            Some(place) => Some(place),
            None => {
                let place = self.others.get_index_of(&number)?;
                Some(self.first.len() + place)
            }
        }
    }

    /// Adds a number that is not there.
    pub fn add(&mut self, number: u64) -> Result<(), AllocError>
        requires new { list_any (nat_eq number) self.old ≡ false }
        requires few { length self.old + 1 < 2 ^ 32 }
        ensures { OnOk result (self.new ≡ self.old ++ number ∷ []) }
    {
        if self.first.len() < 16 && self.others.is_empty() {
            self.first.push(number)?;
            return Ok(());
        }
        self.others.insert(number)?;
        Ok(())
    }
}

fn place_of(numbers: &[u64], number: u64) -> Option<usize>
    ensures { result ≡ position (nat_eq number) numbers.now }
{
    numbers.iter().position(|other| number == *other)
}
