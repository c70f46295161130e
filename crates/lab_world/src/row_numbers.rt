//! Numbers of rows that mostly come in order.
ghost use Rattle.std.specs.Prelude.{◌≡◌, ◌+◌, ◌<◌, ◌^◌, ◌++◌, ◌∷◌, [], length, position, true, false, nat_eq, OnOk, IfOk};
ghost use Rattle.std.specs.List.{list_any, range_with_len};

use super::number_set::NumberSet;
use std::alloc::{AllocError, Global};
use std::marker::Model;

/// Numbers, each once, in the order of adding. While each is the next one from 0 on they are only counted, so that rows in
/// order take no memory.
#[derive(Drop)]
pub struct RowNumbers {
    alloc: Global,
    in_order: u32,
    others: Option<Box<NumberSet>>,
}

impl Model for RowNumbers {
    ghost use Rattle.std.specs.Prelude.{ℕ, List, [], ◌++◌};
    ghost use Rattle.std.specs.Option.{option_map_or};
    ghost use Rattle.std.specs.List.{range_with_len};

    ghost Value = { List ℕ };

    ghost view = { λ s. range_with_len 0 s.in_order ++ option_map_or (λ b. b.value) s.others [] };
}

impl RowNumbers {
    /// No numbers.
    pub fn new(alloc: Global) -> RowNumbers
        ensures { result ≡ [] }
    {
        RowNumbers {
            alloc,
            in_order: 0,
            others: None,
        }
    }

    /// Whether a number is there.
    pub fn contains(&self, number: u64) -> bool
        ensures { result ≡ list_any (nat_eq number) self.now }
    {
        if number < self.in_order as u64 {
            return true;
        }
        match &self.others {
            None => false,
            Some(others) => others.contains(number),
        }
    }

    /// The place of a number, where it is there.
    pub fn find(&self, number: u64) -> Option<usize>
        ensures { result ≡ position (nat_eq number) self.now }
    {
        if number < self.in_order as u64 {
            return Some(number as usize);
        }
        match &self.others {
            None => None,
            Some(others) => {
                let place = others.find(number)?;
                Some(self.in_order as usize + place)
            }
        }
    }

    /// Tells that the numbers are 0, 1, .. in order; of other numbers it tells nothing.
    pub fn are_in_order(&self) -> bool
        ensures { result ≡ true → self.now ≡ range_with_len 0 (length self.now) }
    {
        self.others.is_none()
    }

    /// Adds a number that is not there.
    pub fn add(&mut self, number: u64) -> Result<(), AllocError>
        requires new { list_any (nat_eq number) self.old ≡ false }
        requires few { length self.old + 1 < 2 ^ 32 }
        ensures { OnOk result (self.new ≡ self.old ++ number ∷ []) }
    {
        match &mut self.others {
            None => {
                if number == self.in_order as u64 {
                    self.in_order += 1;
                    return Ok(());
                }
                self.others = Some(boxed_number(self.alloc, number)?);
                Ok(())
            }
            Some(others) => others.add(number),
        }
    }
}

// The set of one number.
fn boxed_number(alloc: Global, number: u64) -> Result<Box<NumberSet>, AllocError>
    ensures { IfOk result (λ b. b.value ≡ number ∷ []) }
{
    let mut numbers = NumberSet::new(alloc);
    numbers.add(number)?;
    Ok(Box::new(alloc, numbers)?)
}
