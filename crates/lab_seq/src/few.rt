//! A list that holds one item without an allocation.

ghost use Rattle.std.specs.Prelude.{◌≡◌, ◌==◌, ◌∷◌, [], length, IfOk, OnOk, OnErr};
ghost use Rattle.std.specs.Mem.{FitsInMemory};

use crate::Seq;
use std::alloc::{AllocError, Global};
use std::marker::Model;
use std::slice;

/// Items, seen as their list. Most lists of a game have one item, which then takes no allocation.
#[derive(Drop)]
pub struct Few<T> {
    items: Items<T>,
}

#[derive(Drop)]
enum Items<T> {
    One(T),
    More(Seq<T>),
}

impl<T> Model for Few<T> {
    ghost use Rattle.std.specs.Prelude.{List};
    ghost use Rattle.std.specs.Coded.{coded_list};
    ghost use Rattle.lab_seq.specs.Items.{items_of};

    ghost Value = { List T };

    ghost coded = { coded_list T.code };

    ghost view = { λ f. items_of f.items };
}

impl<T> Few<T> {
    /// No items; it takes no memory.
    pub fn new(alloc: Global) -> Self
        ensures { result ≡ [] }
    {
        Few {
            items: Items::More(Seq::new(alloc)),
        }
    }

    /// One item; it takes no memory.
    pub fn one(item: T) -> Self
        ensures { result ≡ item ∷ [] }
    {
        Few {
            items: Items::One(item),
        }
    }

    /// The items of a vector; it takes no memory.
    pub fn from_vec(items: Vec<T>) -> Self
        ensures { result ≡ items.items }
    {
        Few {
            items: Items::More(Seq::from_vec(items)),
        }
    }

    /// Takes the items out of a vector, which is then empty and keeps its room. One item takes no memory. Where none is left,
    /// they stay in it.
    pub fn take_from(alloc: Global, items: &mut Vec<T>) -> Result<Self, AllocError>
    where
        T: Drop,
        ensures taken { IfOk result (λ f. f ≡ items.old.items) }
        ensures left { OnOk result (items.new.items ≡ []) }
        ensures kept { OnErr result (items.new.items ≡ items.old.items) }
    {
        if items.len() == 1 {
            if let Some(item) = items.pop() {
                return Ok(Few::one(item));
            }
        }
        let taken = Seq::take_from(alloc, items)?;
        Ok(Few {
            items: Items::More(taken),
        })
    }

    /// The items; the condition holds of each type whose values fit in memory.
    pub fn as_slice(&self) -> &[T]
        requires { FitsInMemory T.row }
        ensures { result.now ≡ self.now }
    {
        match &self.items {
            Items::One(item) => slice::from_ref(item),
            Items::More(items) => items.as_slice(),
        }
    }

    pub fn len(&self) -> usize
        requires { FitsInMemory T.row }
        ensures { result ≡ length self.now }
    {
        self.as_slice().len()
    }

    pub fn is_empty(&self) -> bool
        requires { FitsInMemory T.row }
        ensures { result ≡ (length self.now == 0) }
    {
        self.as_slice().is_empty()
    }
}
