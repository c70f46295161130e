//! A vector that contracts see as a list.

ghost use Rattle.std.specs.Prelude.{◌≡◌, ◌==◌, [], length, IfOk, OnOk, OnErr};

use std::alloc::{AllocError, Global};
use std::marker::Model;

/// A `Vec` that contracts see as the list of its items.
#[derive(Drop)]
pub struct Seq<T> {
    items: Vec<T>,
}

impl<T> Model for Seq<T> {
    ghost use Rattle.std.specs.Prelude.{List};
    ghost use Rattle.std.specs.Coded.{coded_list};

    ghost Value = { List T };

    ghost coded = { coded_list T.code };

    ghost view = { λ s. s.items.items };
}

impl<T> Seq<T> {
    /// No items; it takes no memory.
    pub fn new(alloc: Global) -> Self
        ensures { result ≡ [] }
    {
        Seq::from_vec(Vec::new(alloc))
    }

    /// The items of a vector; it takes no memory.
    pub fn from_vec(items: Vec<T>) -> Self
        ensures { result ≡ items.items }
    {
        Seq { items }
    }

    /// Takes the items out of a vector, which is then empty and keeps its room. Where no memory is left, they stay in it.
    pub fn take_from(alloc: Global, items: &mut Vec<T>) -> Result<Self, AllocError>
    where
        T: Drop,
        ensures taken { IfOk result (λ s. s ≡ items.old.items) }
        ensures left { OnOk result (items.new.items ≡ []) }
        ensures kept { OnErr result (items.new.items ≡ items.old.items) }
    {
        let mut taken = Vec::with_capacity(alloc, items.len())?;
        taken.append(items)?;
        Ok(Seq::from_vec(taken))
    }

    /// The items as a vector again; it takes no memory.
    pub fn into_vec(self) -> Vec<T>
        ensures { result.items ≡ self }
    {
        let Seq { items } = self;
        items
    }

    pub fn as_slice(&self) -> &[T]
        ensures { result.now ≡ self.now }
    {
        self.items.as_slice()
    }

    pub fn len(&self) -> usize
        ensures { result ≡ length self.now }
    {
        self.items.len()
    }

    pub fn is_empty(&self) -> bool
        ensures { result ≡ (length self.now == 0) }
    {
        self.items.is_empty()
    }
}
