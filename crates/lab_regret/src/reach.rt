//! The pass down: what a seat's own weights come to on the way to each decision.

ghost use Rattle.std.specs.Prelude.{ℕ, ◌≡◌, ◌+◌, ◌*◌, ◌^◌, ◌<◌, ◌≤◌, length, slice_index};
ghost use Rattle.lab_defs_value.specs.Tables.{weights_of};
ghost use Rattle.lab_form.specs.Forms.{AreSets, weight_count};
ghost use Rattle.lab_form.specs.Decisions.{decisions_above};
ghost use Rattle.lab_regret.specs.Reached.{weight_to, power_to, AreAt, HasSmallWays};

use lab_form::FormSet;

/// Writes, for each decision by the number of its weight plus one, the seat's weights on the way to it, itself counted, and the power
/// of its grid of `d` for as many decisions; both are 1 where there is none yet.
pub fn write_reach(
    sets: &[FormSet],
    above: &[u32],
    d: u32,
    weights: &[u32],
    reach: &mut [u128],
    powers: &mut [u128],
)
    requires order { AreSets sets.now }
    requires above { above.now ≡ decisions_above sets.now }
    requires few { weight_count sets.now < 2 ^ 32 }
    requires weights { length weights.now ≡ weight_count sets.now }
    requires places { length reach.old ≡ weight_count sets.now + 1 }
    requires power_places { length powers.old ≡ weight_count sets.now + 1 }
    requires small { HasSmallWays d sets.now weights.now }
    ensures places { length reach.new ≡ length reach.old }
    ensures power_places { length powers.new ≡ length powers.old }
    ensures reach { AreAt sets.now (length sets.now) (weight_to sets.now weights.now) reach.new }
    ensures powers { AreAt sets.now (length sets.now) (power_to d sets.now) powers.new }
{
    reach[0] = 1;
    powers[0] = 1;
    for i in 0..sets.len() {
        let set = sets[i];
        let count = weights_of(set.actions);
        write_set(
            set.first_weight as usize,
            count,
            above[i] as usize,
            d,
            weights,
            reach,
            powers,
        );
    }
}

/// How many weights a set with so many actions has: a pass has none.
pub fn weights_of(actions: u32) -> usize
    ensures { result ≡ weights_of actions }
{
    if actions >= 2 { actions as usize } else { 0 }
}

/// Writes both for the decisions at a set, from its first weight on, by those of the last decision above it.
fn write_set(
    first: usize,
    count: usize,
    above: usize,
    d: u32,
    weights: &[u32],
    reach: &mut [u128],
    powers: &mut [u128],
)
    requires above { above ≤ first }
    requires within { first + count ≤ length weights.now }
    requires places { length reach.old ≡ length weights.now + 1 }
    requires power_places { length powers.old ≡ length weights.now + 1 }
    requires small { (a : ℕ) → a < count → slice_index reach.old above * slice_index weights.now (first + a) ≤ 2 ^ 77 }
    requires small_power { 0 < count → slice_index powers.old above * d ≤ 2 ^ 77 }
    ensures places { length reach.new ≡ length reach.old }
    ensures power_places { length powers.new ≡ length powers.old }
    ensures before { (k : ℕ) → k ≤ first → slice_index reach.new k ≡ slice_index reach.old k }
    ensures powers_before { (k : ℕ) → k ≤ first → slice_index powers.new k ≡ slice_index powers.old k }
    ensures reach { (a : ℕ) → a < count → slice_index reach.new (first + a + 1) ≡ slice_index reach.old above * slice_index weights.now (first + a) }
    ensures powers { (a : ℕ) → a < count → slice_index powers.new (first + a + 1) ≡ slice_index powers.old above * d }
{
    if count == 0 {
        return;
    }
    let before = reach[above];
    let power = powers[above] * d as u128;
    for a in 0..count {
        reach[first + a + 1] = before * weights[first + a] as u128;
        powers[first + a + 1] = power;
    }
}
