//! What stands in forms, in few words.

ghost use Rattle.std.specs.Prelude.{◌≡◌};
ghost use Rattle.lab_rule_tests.specs.Examples.{step, set, row};

use lab_form::{FormRow, FormSet, SetId};
use lab_units::Worth;

/// A set with an action there.
pub fn step(number: u32, action: u32) -> Option<(SetId, u32)>
    ensures { result ≡ step number action }
{
    Some((SetId(number), action))
}

/// A set that follows a step or none.
pub fn set(parent: Option<(SetId, u32)>, actions: u32, first_weight: u32) -> FormSet
    ensures { result ≡ set parent actions first_weight }
{
    FormSet {
        parent,
        actions,
        first_weight,
    }
}

/// A row with the last step of each seat.
pub fn row(
    worth: i128,
    one: Option<(SetId, u32)>,
    two: Option<(SetId, u32)>,
    pads: [u32; 2],
) -> FormRow
    ensures { result ≡ row worth one two pads }
{
    FormRow {
        worth: Worth(worth),
        last: [one, two],
        pads,
    }
}
