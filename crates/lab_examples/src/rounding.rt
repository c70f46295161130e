//! How shares become whole weights that sum to the grid.
ghost use Rattle.std.specs.Prelude.{◌≡◌, ◌∷◌, [], pos, negsuc};
ghost use Rattle.lab_defs_value.specs.Rounding.{rounded};

/// A unit that is left goes to the first share that is not 0: one without a share gets nothing.
pub fn no_unit_without_a_share()
    ensures nothing { rounded 3 (pos 0 ∷ pos 1 ∷ pos 1 ∷ []) ≡ 0 ∷ 2 ∷ 1 ∷ [] }
    ensures less_than_nothing { rounded 3 (negsuc 6 ∷ pos 1 ∷ pos 1 ∷ []) ≡ 0 ∷ 2 ∷ 1 ∷ [] }
{}

/// Exact parts leave nothing over.
pub fn exact_parts()
    ensures { rounded 6 (pos 1 ∷ pos 0 ∷ pos 2 ∷ []) ≡ 2 ∷ 0 ∷ 4 ∷ [] }
{}

/// The first shares get the units that are left, whatever was rounded off: of 10 the parts are 2 2/9 and 7 7/9, and the first has the unit.
pub fn first_and_not_nearest()
    ensures { rounded 10 (pos 2 ∷ pos 7 ∷ []) ≡ 3 ∷ 7 ∷ [] }
{}

/// Where no share is above 0 the grid is split evenly.
pub fn no_share_at_all()
    ensures { rounded 5 (pos 0 ∷ negsuc 2 ∷ pos 0 ∷ []) ≡ 2 ∷ 2 ∷ 1 ∷ [] }
{}
