//! Walks along paths.

ghost use Rattle.std.specs.Prelude.{◌≡◌, ◌+◌, ◌<◌, ◌≤◌, ℕ, [], None, length, slice_index, slice_index_or, IfOk};
ghost use Rattle.std.specs.List.Sorted.{IsNonDecreasing};
ghost use Rattle.lab_tree.specs.Ways.{AreWays, IsBefore, base_next, bases_of, path_in};

use crate::{NodeId, PathItem};
use std::alloc::{AllocError, Global};

/// How many items are on the way up to each node.
pub fn bases(
    alloc: Global,
    starts: &[u32],
    parents: &[Option<NodeId>],
) -> Result<Vec<u32>, AllocError>
    requires long { length starts.now ≡ length parents.now + 1 }
    requires rise { IsNonDecreasing starts.now }
    requires before { (n : ℕ) → n < length parents.now → IsBefore n (slice_index_or parents.now n None) }
    ensures { IfOk result (λ b. b.items ≡ bases_of starts.now parents.now) }
{
    let mut bases = Vec::new(alloc);
    for node in 0..parents.len() {
        bases.push(base(starts, bases.as_slice(), parents[node], node))?;
    }
    Ok(bases)
}

// That of the first node that has none yet.
fn base(starts: &[u32], bases: &[u32], parent: Option<NodeId>, node: usize) -> u32
    requires before { IsBefore node parent }
    requires long { node < length starts.now }
    requires rise { IsNonDecreasing starts.now }
    requires count { length bases.now ≡ node }
    requires within { (k : ℕ) → k < node → slice_index bases.now k ≤ slice_index starts.now k }
    ensures value { result ≡ base_next starts.now node bases.now parent }
    ensures within { result ≤ slice_index starts.now node }
{
    let Some(before) = parent else {
        return 0;
    };
    let before = before.0 as usize;
    bases[before] + (starts[before + 1] - starts[before])
}

/// The item with a number on the path to a node.
pub fn item_at(
    items: &[PathItem],
    starts: &[u32],
    parents: &[Option<NodeId>],
    bases: &[u32],
    node: u32,
    index: u32,
) -> PathItem
    requires ways { AreWays (length items.now) starts.now parents.now }
    requires bases { bases.now ≡ bases_of starts.now parents.now }
    requires node { node < length parents.now }
    requires there { index < length (path_in items.now starts.now parents.now node) }
    ensures { (d : PathItem) → slice_index_or (path_in items.now starts.now parents.now node) index d ≡ result }
{
    let mut at = node;
    while index < bases[at as usize] {
        let Some(before) = parents[at as usize] else {
            unreachable!();
        };
        at = before.0;
    }
    let here = at as usize;
    items[(starts[here] + (index - bases[here])) as usize]
}
