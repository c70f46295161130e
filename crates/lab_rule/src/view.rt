//! All that a rule is told of a subgame.

ghost use Rattle.lab_defs_value.specs.Views.{IsView};
ghost use Rattle.lab_rule.specs.Paths.{view_in};

use crate::{PathSet, PathStep};
use lab_form::Form;

/// A subgame for a keeper, as a rule sees it: its form, and the way of the keeper's opponent to it.
#[derive(Clone, Copy)]
pub struct View<'a> {
    /// The seat whose strategy may be replaced, 1 or 2.
    pub keeper: u32,
    /// The grids of both seats.
    pub grids: [u32; 2],
    /// The form of the subgame, the keeper's weights before it counted into the worths.
    pub form: &'a Form,
    /// The opponent's sets on the path from the root to the subgame's node, in set order.
    pub sets: &'a [PathSet],
    /// The steps between them.
    pub steps: &'a [PathStep],
    /// How many of the last of these sets stand at the node itself: the root sets.
    pub roots: u32,
    pub ghost valid: { ∥ IsView (view_in keeper grids form.now sets.now steps.now roots) ∥₁ },
}
