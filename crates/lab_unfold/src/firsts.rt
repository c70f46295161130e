//! The first of entries that are alike, by how each goes on from an earlier one.

ghost use Rattle.std.specs.Prelude.{◌≡◌, ◌<◌, ◌≤◌, ◌++◌, ◌∷◌, [], List, length, if◌then◌else◌, Some, unwrap_or, IfOk};
ghost use Rattle.std.specs.BTreeMap.{get};
ghost use Rattle.std.specs.Ordering.{is_eq};
ghost use Rattle.lab_unfold.specs.declared.item.Item.{Item};
ghost use Rattle.lab_unfold.specs.declared.link.Link.{Link};
ghost use Rattle.lab_unfold.specs.Links.{link_cmp, AreBefore, IsGrown, AreFirstLists, Keyed};

use super::link::Link;
use std::alloc::{AllocError, Global};
use std::collections::BTreeMap;

/// For each entry the number of the first one with the same list, where the list of an entry is that of its parent with its item after it, or empty where it has no link.
pub fn firsts(alloc: Global, links: &[Option<Link>]) -> Result<Vec<u32>, AllocError>
    requires few { length links.now ≤ 65536 }
    requires before { AreBefore links.now }
    ensures { IfOk result (λ v. (all : List (List Item)) → IsGrown all links.now → AreFirstLists all v.items) }
{
    let mut kept = BTreeMap::new(alloc);
    let mut firsts = Vec::with_capacity(alloc, links.len())?;
    for _ in 0..links.len() {
        let first = next_first(&mut kept, links, firsts.as_slice())?;
        firsts.push(first)?;
    }
    Ok(firsts)
}

// The first entry that is like the one with the next number.
fn next_first(
    kept: &mut BTreeMap<Link, u32>,
    links: &[Option<Link>],
    firsts: &[u32],
) -> Result<u32, AllocError>
    requires few { length links.now ≤ 65536 }
    requires before { AreBefore links.now }
    requires below { length firsts.now < length links.now }
    requires keyed { Keyed links.now firsts.now (get link_cmp kept.old) }
    ensures { IfOk result (λ f. Keyed links.now (firsts.now ++ f ∷ []) (get link_cmp kept.new)) }
{
    let Some(link) = links[firsts.len()] else {
        return Ok(0);
    };
    let key = Link {
        parent: firsts[link.parent as usize],
        item: link.item,
    };
    first_with(kept, key, firsts.len() as u32)
}

// The entry that is kept at a key; where there is none, this one is kept from now on.
fn first_with(kept: &mut BTreeMap<Link, u32>, key: Link, entry: u32) -> Result<u32, AllocError>
    ensures value { IfOk result (λ f. f ≡ unwrap_or (get link_cmp kept.old key) entry) }
    ensures kept { IfOk result (λ f. (q : Link) → get link_cmp kept.new q
        ≡ (if is_eq (link_cmp key q) then Some f else get link_cmp kept.old q)) }
{
    let first = kept.entry(key)?.or_insert(entry);
    Ok(*first)
}
