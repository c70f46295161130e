//! Shares of all decisions of a seat, rounded to its table.

ghost use Rattle.std.specs.Prelude.{◌≡◌, ◌+◌, ◌<◌, ◌≤◌, ◌^◌, ◌++◌, length, take, drop};
ghost use Rattle.std.specs.Int.RustNames.{unsigned_abs};
ghost use Rattle.std.specs.List.{All};
ghost use Rattle.lab_defs_value.specs.Rounding.{rounded};
ghost use Rattle.lab_defs_value.specs.Matching.{rounded_table};
ghost use Rattle.lab_form.specs.Forms.{AreSets, actions_in, weight_count};
ghost use Rattle.lab_regret.specs.Kept.{numbers};

use super::reach::weights_of;
use lab_form::FormSet;
use lab_table::rounded;
use lab_units::Worth;

/// Writes the table on a grid of `d` to which the shares of a seat's decisions are rounded, set by set.
pub fn write_table(sets: &[FormSet], d: u32, shares: &[Worth], out: &mut [u32])
    requires order { AreSets sets.now }
    requires count { length shares.now ≡ weight_count sets.now }
    requires same { length out.old ≡ length shares.now }
    requires least { 1 ≤ d }
    requires grid { d ≤ 4096 }
    requires few { All (λ n. n ≤ 2 ^ 16) (actions_in sets.now) }
    requires small { All (λ w. unsigned_abs w.0 ≤ 2 ^ 107) shares.now }
    ensures { out.new ≡ rounded_table d (actions_in sets.now) (numbers shares.now) }
{
    for i in 0..sets.len() {
        let set = sets[i];
        let count = weights_of(set.actions);
        round_at(set.first_weight as usize, count, d, shares, out);
    }
}

// Writes the weights to which so many shares from a place on are rounded.
fn round_at(first: usize, count: usize, d: u32, shares: &[Worth], out: &mut [u32])
    requires few { count ≤ 2 ^ 16 }
    requires within { first + count ≤ length shares.now }
    requires same { length out.old ≡ length shares.now }
    requires least { 1 ≤ d }
    requires grid { d ≤ 4096 }
    requires small { All (λ w. unsigned_abs w.0 ≤ 2 ^ 107) shares.now }
    ensures { out.new ≡ take first out.old ++ (rounded d (numbers (take count (drop first shares.now))) ++ drop (first + count) out.old) }
{
    if count == 0 {
        return;
    }
    let end = first + count;
    rounded(&shares[first..end], d, &mut out[first..end]);
}
