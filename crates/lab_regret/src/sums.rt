//! The sums by which averages are made: each weight with the weights before it, round by round.

ghost use Rattle.std.specs.Prelude.{ℕ, ◌≡◌, ◌+◌, ◌^◌, ◌<◌, ◌≤◌, pos, ◌+ℤ◌, length, slice_index};
ghost use Rattle.std.specs.Int.RustNames.{unsigned_abs};
ghost use Rattle.lab_defs_value.specs.Bounds.{at};
ghost use Rattle.lab_regret.specs.Kept.{numbers};

use super::numbers::plus;
use lab_units::Worth;

/// Adds to each decision's sum its reach, which stands one place further on.
pub fn add_reach(reach: &[u128], sums: &mut [Worth])
    requires places { length reach.now ≡ length sums.old + 1 }
    requires small { (k : ℕ) → k < length sums.old → slice_index reach.now (k + 1) ≤ 2 ^ 77 }
    requires sizes { (k : ℕ) → unsigned_abs (at (numbers sums.old) k) ≤ 2 ^ 89 }
    ensures places { length sums.new ≡ length sums.old }
    ensures sums { (k : ℕ) → k < length sums.old → at (numbers sums.new) k ≡ at (numbers sums.old) k +ℤ pos (slice_index reach.now (k + 1)) }
{
    for k in 0..sums.len() {
        sums[k] = plus(sums[k], whole(reach[k + 1]));
    }
}

// A reach as a number with a sign.
fn whole(reach: u128) -> Worth
    requires { reach ≤ 2 ^ 77 }
    ensures { result.0 ≡ pos reach }
{
    Worth(reach as i128)
}
