//! The sets of a seat as items of paths.

ghost use Rattle.std.specs.Prelude.{◌≡◌, IfOk};
ghost use Rattle.lab_tree.specs.Paths.{paths_by, HavePaths};

use super::places::path_items;
use super::sets::SeatSets;
use super::walk::bases;
use crate::{NodeId, PathItem};
use std::alloc::{AllocError, Global};
use std::marker::Model;

/// The sets of a seat as items of paths, and how many items are on the way up to each node.
#[derive(Drop)]
pub struct SeatPaths {
    items: Vec<PathItem>,
    bases: Vec<u32>,
}

impl Model for SeatPaths {
    ghost use Rattle.lab_tree.specs.Paths.{PathsValue};

    ghost Value = { PathsValue };

    ghost view = { λ p. record { items = p.items.items; bases = p.bases.items } };
}

impl SeatPaths {
    /// Those of the sets of a seat, by the parent of each node.
    pub fn build(
        alloc: Global,
        sets: &SeatSets,
        parents: &[Option<NodeId>],
    ) -> Result<SeatPaths, AllocError>
        requires { HavePaths sets.now.sets sets.now.starts parents.now }
        ensures { IfOk result (λ p. p ≡ paths_by sets.now.sets sets.now.starts parents.now) }
    {
        let bases = bases(alloc, sets.starts(), parents)?;
        let items = path_items(alloc, sets.sets(), sets.starts(), bases.as_slice())?;
        Ok(SeatPaths { items, bases })
    }

    /// The sets as items of paths.
    pub fn items(&self) -> &[PathItem]
        ensures { result.now ≡ self.now.items }
    {
        self.items.as_slice()
    }

    /// How many items are on the way up to each node.
    pub fn bases(&self) -> &[u32]
        ensures { result.now ≡ self.now.bases }
    {
        self.bases.as_slice()
    }
}
