//! Allowances of rules that allow nothing.

ghost use Rattle.std.specs.Prelude.{◌≡◌, length, pos, replicate};

use lab_units::Worth;

/// Writes an allowance of 0 for each root set.
pub fn allow_nothing(out: &mut [Worth])
    ensures { out.new ≡ replicate (length out.old) (record { 0 = pos 0 }) }
{
    out.fill(Worth(0));
}
