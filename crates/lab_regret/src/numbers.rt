//! Sums and products that fit.

ghost use Rattle.std.specs.Prelude.{◌≡◌, ◌+◌, ◌*◌, ◌^◌, ◌<◌, ◌≤◌, pos, ◌+ℤ◌, ◌-ℤ◌, ◌*ℤ◌};
ghost use Rattle.std.specs.Int.RustNames.{unsigned_abs};

use lab_units::Worth;

/// A number, times another one that has no sign.
pub fn times(number: Worth, size: u128) -> Worth
    requires size { size ≤ 2 ^ 94 }
    requires product { unsigned_abs number.0 * size ≤ 2 ^ 94 }
    ensures { result.0 ≡ number.0 *ℤ pos size }
{
    Worth(number.0 * size as i128)
}

/// The sum of two numbers.
pub fn plus(one: Worth, two: Worth) -> Worth
    requires { unsigned_abs one.0 + unsigned_abs two.0 < 2 ^ 127 }
    ensures { result.0 ≡ one.0 +ℤ two.0 }
{
    Worth(one.0 + two.0)
}

/// What a number is more than another one.
pub fn minus(one: Worth, two: Worth) -> Worth
    requires { unsigned_abs one.0 + unsigned_abs two.0 < 2 ^ 127 }
    ensures { result.0 ≡ one.0 -ℤ two.0 }
{
    Worth(one.0 - two.0)
}
