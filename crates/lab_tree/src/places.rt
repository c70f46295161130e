//! Information sets as items of paths.

ghost use Rattle.std.specs.Prelude.{
  ℕ,
  ◌≡◌,
  ◌+◌,
  ◌-◌,
  ◌<◌,
  ◌≤◌,
  ◌^◌,
  map,
  length,
  IfOk,
};
ghost use Rattle.std.specs.List.{range_with_len};
ghost use Rattle.lab_tree.specs.Places.{
  same_parent,
  set_read,
  is_kin,
  place_at,
  kin_count,
  count_back,
  index_of,
  item_of,
  items_of,
  AreGrouped,
  AreAtNodes,
};

use crate::{Follow, PathItem, SetInfo};
use lab_form::SetId;
use std::alloc::{AllocError, Global};

/// Each set of a seat as an item of the paths through it.
pub fn path_items(
    alloc: Global,
    sets: &[SetInfo],
    starts: &[u32],
    bases: &[u32],
) -> Result<Vec<PathItem>, AllocError>
    requires few { length sets.now < 2 ^ 32 }
    requires grouped { AreGrouped sets.now }
    requires nodes { AreAtNodes sets.now starts.now bases.now }
    ensures { IfOk result (λ i. i.items ≡ items_of sets.now starts.now bases.now) }
{
    let places = places(alloc, sets)?;
    let counts = counts(alloc, sets, places.as_slice())?;
    let mut items = Vec::new(alloc);
    for number in 0..sets.len() {
        items.push(item(
            sets,
            starts,
            bases,
            places.as_slice(),
            counts.as_slice(),
            number,
        ))?;
    }
    Ok(items)
}

// A set as an item of the paths through it.
fn item(
    sets: &[SetInfo],
    starts: &[u32],
    bases: &[u32],
    places: &[u32],
    counts: &[u32],
    number: usize,
) -> PathItem
    requires few { length sets.now < 2 ^ 32 }
    requires nodes { AreAtNodes sets.now starts.now bases.now }
    requires there { number < length sets.now }
    requires places { places.now ≡ map (place_at sets.now) (range_with_len 0 (length sets.now)) }
    requires counts { counts.now ≡ map (count_back sets.now) (range_with_len 0 (length sets.now)) }
    ensures { result ≡ item_of sets.now starts.now bases.now number }
{
    let set = sets[number];
    let Some((parent, action)) = set.parent else {
        return PathItem {
            set: set.id,
            follows: None,
        };
    };
    PathItem {
        set: set.id,
        follows: Some(Follow {
            from: index(sets, starts, bases, parent),
            action,
            place: places[number],
            count: counts[sets.len() - 1 - number],
        }),
    }
}

// Which item a set is on each path through it.
fn index(sets: &[SetInfo], starts: &[u32], bases: &[u32], set: SetId) -> u32
    requires few { length sets.now < 2 ^ 32 }
    requires nodes { AreAtNodes sets.now starts.now bases.now }
    requires there { set.0 < length sets.now }
    ensures { result ≡ index_of sets.now starts.now bases.now set.0 }
{
    let node = sets[set.0 as usize].node.0 as usize;
    bases[node] + (set.0 - starts[node])
}

// Of each set, how many before it follow the same step at the same node.
fn places(alloc: Global, sets: &[SetInfo]) -> Result<Vec<u32>, AllocError>
    requires few { length sets.now < 2 ^ 32 }
    requires grouped { AreGrouped sets.now }
    ensures { IfOk result (λ p. p.items ≡ map (place_at sets.now) (range_with_len 0 (length sets.now))) }
{
    let mut places = Vec::new(alloc);
    for _ in 0..sets.len() {
        places.push(place(sets, places.as_slice()))?;
    }
    Ok(places)
}

// That of the first set that has none yet.
fn place(sets: &[SetInfo], places: &[u32]) -> u32
    requires few { length sets.now < 2 ^ 32 }
    requires grouped { AreGrouped sets.now }
    requires places { places.now ≡ map (place_at sets.now) (range_with_len 0 (length places.now)) }
    requires below { length places.now < length sets.now }
    ensures { result ≡ place_at sets.now (length places.now) }
{
    let number = places.len();
    if number == 0 {
        return 0;
    }
    if are_kin(sets, number - 1) {
        places[number - 1] + 1
    } else {
        0
    }
}

// Of each set from the last one on, how many follow the same step at the same node.
fn counts(alloc: Global, sets: &[SetInfo], places: &[u32]) -> Result<Vec<u32>, AllocError>
    requires few { length sets.now < 2 ^ 32 }
    requires grouped { AreGrouped sets.now }
    requires places { places.now ≡ map (place_at sets.now) (range_with_len 0 (length sets.now)) }
    ensures { IfOk result (λ c. c.items
        ≡ map (count_back sets.now) (range_with_len 0 (length sets.now))) }
{
    let mut counts = Vec::new(alloc);
    for _ in 0..sets.len() {
        counts.push(count(sets, places, counts.as_slice()))?;
    }
    Ok(counts)
}

// That of the last set that has none yet.
fn count(sets: &[SetInfo], places: &[u32], counts: &[u32]) -> u32
    requires few { length sets.now < 2 ^ 32 }
    requires grouped { AreGrouped sets.now }
    requires places { places.now ≡ map (place_at sets.now) (range_with_len 0 (length sets.now)) }
    requires counts { counts.now ≡ map (count_back sets.now) (range_with_len 0 (length counts.now)) }
    requires below { length counts.now < length sets.now }
    ensures { result ≡ kin_count sets.now (length sets.now - 1 - length counts.now) }
{
    let number = sets.len() - 1 - counts.len();
    let alone = places[number] + 1;
    if counts.is_empty() {
        return alone;
    }
    if are_kin(sets, number) {
        counts[counts.len() - 1]
    } else {
        alone
    }
}

// Whether a set and the next one follow the same step at the same node.
fn are_kin(sets: &[SetInfo], number: usize) -> bool
    requires { number + 1 < length sets.now }
    ensures { result ≡ is_kin (set_read sets.now number) (set_read sets.now (number + 1)) }
{
    let set = sets[number];
    let next = sets[number + 1];
    set.node.0 == next.node.0 && are_same(set.parent, next.parent)
}

// Whether two steps are one.
fn are_same(one: Option<(SetId, u32)>, two: Option<(SetId, u32)>) -> bool
    ensures { result ≡ same_parent one two }
{
    match (one, two) {
        (Some(first), Some(second)) => first.0.0 == second.0.0 && first.1 == second.1,
        (None, None) => true,
        _ => false,
    }
}
