//! Lists of items as contracts see them: vectors, and lists that hold one item without an allocation.
//!
//! Types with lists for fields have them as `Seq` or `Few`, so that a contract compares such a type with a value of the
//! definitions. Capacities and allocators are no part of what contracts see: two lists are equal where their items are.
#![tactic(auto)]

mod few;
mod seq;

pub use few::Few;
pub use seq::Seq;

#[cfg(test)]
mod tests {
    use super::*;
    use std::test::Fail;

    #[test]
    fn gives_back_its_items(rt: HostRuntime) -> Result<(), Fail> {
        let items = Seq::from_vec(vec![in rt.alloc(); 7; 3]?);
        assert_eq!(rt; items.as_slice(), [7, 7, 7].as_slice());
        assert!(rt; items.len() == 3 && !items.is_empty());
        let mut items = items.into_vec();
        assert_eq!(rt; Seq::take_from(rt.alloc(), &mut items)?.len(), 3);
        assert!(rt; items.is_empty() && items.capacity() == 3);
        assert!(rt; Seq::<u32>::new(rt.alloc()).is_empty());
        Ok(())
    }

    #[test]
    fn holds_few_items(rt: HostRuntime) -> Result<(), Fail> {
        let mut items = vec![in rt.alloc(); 7; 3]?;
        let three = Few::take_from(rt.alloc(), &mut items)?;
        assert!(rt; three.as_slice() == [7, 7, 7].as_slice() && three.len() == 3);
        let none = Few::take_from(rt.alloc(), &mut items)?;
        assert!(rt; none.is_empty() && Few::<u32>::new(rt.alloc()).is_empty());
        items.push(8)?;
        let one = Few::take_from(rt.alloc(), &mut items)?;
        assert!(rt; one.as_slice() == [8].as_slice() && items.capacity() == 3);
        assert!(rt; Few::one(8).as_slice() == one.as_slice());
        let pair = Few::one((7u32, "abc"));
        assert!(rt; pair.len() == 1);
        let five = Few::from_vec(vec![in rt.alloc(); 5; 5]?);
        assert!(rt; five.len() == 5 && !five.is_empty());
        Ok(())
    }
}
