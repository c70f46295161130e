//! Where the sets of each node start, and the sets inside subgames.

ghost use Rattle.std.specs.Prelude.{◌≡◌, ◌<◌, ◌≤◌, ◌^◌, length, map, slice_index, IfOk};
ghost use Rattle.std.specs.List.{All, range_with_len};
ghost use Rattle.lab_tree.specs.SetValues.{start_of, starts_of, span_at, AreRising};

use crate::SetInfo;
use lab_form::Span;
use std::alloc::{AllocError, Global};

/// How many sets are at nodes before each of so many, and before the number after them.
pub fn starts(alloc: Global, sets: &[SetInfo], nodes: u32) -> Result<Vec<u32>, AllocError>
    requires rising { AreRising sets.now }
    requires few { length sets.now < 2 ^ 32 }
    ensures { IfOk result (λ v. v.items ≡ starts_of sets.now nodes) }
{
    let mut starts = Vec::with_capacity(alloc, nodes as usize + 1)?;
    let mut at = 0;
    for node in 0..nodes as usize + 1 {
        at = start_from(sets, at, node);
        starts.push(at as u32)?;
    }
    Ok(starts)
}

// How many sets are at nodes before this one, as many as `from` being known to.
fn start_from(sets: &[SetInfo], from: usize, node: usize) -> usize
    requires rising { AreRising sets.now }
    requires known { from ≤ start_of sets.now node }
    ensures value { result ≡ start_of sets.now node }
    ensures within { result ≤ length sets.now }
{
    let mut at = from;
    while at < sets.len() && (sets[at].node.0 as usize) < node {
        at += 1;
    }
    at
}

/// The sets inside the subgame of each node, by the ends of subgames.
pub fn spans(alloc: Global, starts: &[u32], ends: &[u32]) -> Result<Vec<Span>, AllocError>
    requires starts { length ends.now ≤ length starts.now }
    requires ends { All (λ e. e < length starts.now) ends.now }
    ensures { IfOk result (λ v. v.items ≡ map (λ n. span_at starts.now n (slice_index ends.now n)) (range_with_len 0 (length ends.now))) }
{
    let mut spans = Vec::with_capacity(alloc, ends.len())?;
    for node in 0..ends.len() {
        spans.push(Span {
            from: starts[node],
            to: starts[ends[node] as usize],
        })?;
    }
    Ok(spans)
}
