//! Paths to nodes, item by item.

ghost use Rattle.std.specs.Prelude.{◌≡◌, ◌<◌, length};
ghost use Rattle.std.specs.Iterator.{YieldsFirst, YieldsLast, item_count};
ghost use Rattle.lab_tree.specs.Ways.{AreWays, bases_of, path_in};

use super::walk::item_at;
use crate::{NodeId, PathItem};
use std::iter::DoubleEndedIterator;
use std::marker::Model;

/// The information sets of a seat at each node from the root to another, in their order, from either end.
#[derive(Drop)]
pub struct PathWalk<'a> {
    items: &'a [PathItem],
    starts: &'a [u32],
    parents: &'a [Option<NodeId>],
    bases: &'a [u32],
    node: u32,
    front: u32,
    back: u32,
}

impl<'a> Model for PathWalk<'a> {
    ghost use Rattle.std.specs.Prelude.{◌≡◌, ◌<◌, ◌≤◌, List, length, slice_range};
    ghost use Rattle.lab_tree.specs.declared.info.PathItem.{PathItem};
    ghost use Rattle.lab_tree.specs.Ways.{AreWays, bases_of, path_in};

    ghost Value = { List PathItem };

    ghost view = { λ w. slice_range (path_in w.items.now w.starts.now w.parents.now w.node) w.front w.back };

    ghost invariant = { λ w. AreWays (length w.items.now) w.starts.now w.parents.now
        × (w.bases.now ≡ bases_of w.starts.now w.parents.now)
        × (w.node < length w.parents.now)
        × (w.front ≤ w.back)
        × (w.back ≤ length (path_in w.items.now w.starts.now w.parents.now w.node)) };
}

impl<'a> PathWalk<'a> {
    /// The whole path to a node, from the items, where those of each node start, the parent of each node, and how many items are on the way up to each.
    pub(crate) fn to(
        items: &'a [PathItem],
        starts: &'a [u32],
        parents: &'a [Option<NodeId>],
        bases: &'a [u32],
        node: NodeId,
    ) -> Self
        requires ways { AreWays (length items.now) starts.now parents.now }
        requires bases { bases.now ≡ bases_of starts.now parents.now }
        requires node { node.0 < length parents.now }
        ensures { result ≡ path_in items.now starts.now parents.now node.0 }
    {
        let at = node.0 as usize;
        let back = bases[at] + (starts[at + 1] - starts[at]);
        PathWalk {
            items,
            starts,
            parents,
            bases,
            node: node.0,
            front: 0,
            back,
        }
    }
}

impl<'a> Iterator for PathWalk<'a> {
    type Item = PathItem;

    ghost next_gives = { YieldsFirst (λ w. w) };

    ghost remaining = { item_count (λ w. w) };

    fn next(&mut self) -> Option<PathItem> {
        if self.front == self.back {
            return None;
        }
        let item = item_at(
            self.items,
            self.starts,
            self.parents,
            self.bases,
            self.node,
            self.front,
        );
        self.front += 1;
        Some(item)
    }
}

impl<'a> DoubleEndedIterator for PathWalk<'a> {
    ghost next_back_gives = { YieldsLast (λ w. w) };

    fn next_back(&mut self) -> Option<PathItem> {
        if self.front == self.back {
            return None;
        }
        self.back -= 1;
        Some(item_at(
            self.items,
            self.starts,
            self.parents,
            self.bases,
            self.node,
            self.back,
        ))
    }
}
