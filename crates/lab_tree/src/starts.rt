//! Where the rows of each node begin.

ghost use Rattle.std.specs.Prelude.{◌≡◌, ◌+◌, ◌<◌, ◌^◌, length, IfOk};
ghost use Rattle.std.specs.List.Sorted.{IsNonDecreasingBy};
ghost use Rattle.lab_tree.specs.Ends.{ends_before, end_starts};

use super::end::End;
use std::alloc::{AllocError, Global};

/// For each of so many nodes, and after the last one, how many terminal histories are at nodes before.
pub fn starts(alloc: Global, ends: &[End], nodes: u32) -> Result<Vec<u32>, AllocError>
    requires rising { IsNonDecreasingBy (λ e. e.node) ends.now }
    requires few { length ends.now < 2 ^ 32 }
    requires nodes { nodes + 1 < 2 ^ 32 }
    ensures { IfOk result (λ s. s.items ≡ end_starts ends.now nodes) }
{
    let mut starts = Vec::new(alloc);
    for node in 0..nodes + 1 {
        starts.push(start(ends, node))?;
    }
    Ok(starts)
}

// How many terminal histories are at nodes before one.
fn start(ends: &[End], node: u32) -> u32
    requires rising { IsNonDecreasingBy (λ e. e.node) ends.now }
    requires few { length ends.now < 2 ^ 32 }
    ensures { result ≡ ends_before ends.now node }
{
    ends.partition_point(|end| end.node < node) as u32
}
