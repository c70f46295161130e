//! What the sets that follow a step share, and the part of each.

ghost use Rattle.std.specs.Prelude.{◌≡◌, ◌<◌, ◌≤◌, ◌+◌, ◌^◌, pos, ◌+ℤ◌, ◌-ℤ◌, ◌≤ℤ◌, unsigned_abs};
ghost use Rattle.lab_defs_value.specs.Rounding.{share_size, even_part};

use lab_units::Worth;

/// What the sets that follow a step share: the allowance of the set that it leaves, and what the bound there has over what the step backs up.
pub fn pool(allowance: u128, bound: Worth, through: Worth) -> u128
    requires allowance { allowance ≤ 2 ^ 123 }
    requires bound { unsigned_abs bound.0 ≤ 2 ^ 117 }
    requires through { unsigned_abs through.0 ≤ 2 ^ 117 }
    requires kept { through.0 ≤ℤ bound.0 }
    ensures pool { result ≡ share_size (pos allowance +ℤ (bound.0 -ℤ through.0)) }
    ensures small { result ≤ allowance + 2 ^ 118 }
{
    allowance + (bound.0 - through.0) as u128
}

/// One of even whole parts of a number: the units that are left go one each to the first of them.
pub fn even_part(number: u128, count: u32, place: u32) -> u128
    requires place { place < count }
    requires small { number ≤ 2 ^ 124 }
    ensures { result ≡ even_part number count place }
{
    let more = if (place as u128) < number % (count as u128) {
        1
    } else {
        0
    };
    number / (count as u128) + more
}
