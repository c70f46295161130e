//! Keys in order, and the place of each.

ghost use Rattle.std.specs.Prelude.{◌≡◌, ◌<◌, ◌^◌, length, IfOk};
ghost use Rattle.std.specs.List.{All};
ghost use Rattle.lab_defs_game.specs.Keys.{in_order};
ghost use Rattle.lab_tree.specs.Ranks.{AreApart, AreRanks};

use std::alloc::{AllocError, Global};
use std::collections::BTreeSet;

/// The distinct keys in order.
pub fn sorted<K: Ord + Drop>(alloc: Global, keys: Vec<K>) -> Result<Vec<K>, AllocError>
    ensures { IfOk result (λ v. v.items ≡ in_order K.cmp keys.items) }
{
    let mut set = BTreeSet::new(alloc);
    for key in keys {
        let Ok(_) = set.insert(key) else {
            return Err(AllocError);
        };
    }
    let order: Vec<K> = set.into_iter().collect(alloc)?;
    Ok(order)
}

/// For each of so many numbers its place in this list, where it has one.
pub fn ranks<K>(alloc: Global, order: &[(K, u32)], count: u32) -> Result<Vec<u32>, AllocError>
    requires few { length order.now < 2 ^ 32 }
    requires within { All (λ p. p.1 < count) order.now }
    requires apart { AreApart order.now }
    ensures count { IfOk result (λ v. length v.items ≡ count) }
    ensures ranks { IfOk result (λ v. AreRanks order.now v.items (length order.now)) }
{
    let mut ranks = vec![in alloc; 0; count as usize]?;
    for place in 0..order.len() {
        ranks[order[place].1 as usize] = place as u32;
    }
    Ok(ranks)
}
