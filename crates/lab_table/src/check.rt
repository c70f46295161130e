//! Whether given weights are a table.

ghost use Rattle.std.specs.Prelude.{◌≡◌, ◌==◌, ◌<◌, ◌^◌, length, sum, IfSome, IfNone, OnOk, IfErr};
ghost use Rattle.lab_form.specs.Forms.{actions_in, weight_count, AreSets};
ghost use Rattle.lab_table.specs.Tables.{sums_to, all_weights, AreWeights, IsFirstWrong};
ghost use Rattle.lab_table.specs.Given.{IsRefused};

use super::given::TableGiven;
use super::places::weight_count;
use lab_form::{FormSet, SetId};

/// Checks that there is a weight for each action of each deciding set, and that those of each such set sum to the grid.
pub fn check(sets: &[FormSet], d: u32, weights: &[u32]) -> Result<(), TableGiven>
    requires order { AreSets sets.now }
    requires few_sets { length sets.now < 2 ^ 32 }
    requires few { weight_count sets.now < 2 ^ 32 }
    requires given { length weights.now < 2 ^ 32 }
    ensures ok { OnOk result (AreWeights d (actions_in sets.now) weights.now) }
    ensures err { IfErr result (IsRefused d (actions_in sets.now) weights.now) }
{
    let needed = weight_count(sets);
    let given = weights.len() as u32;
    if needed != given {
        return Err(TableGiven::WrongCount { needed, given });
    }
    match first_wrong(sets, d, weights) {
        Some(set) => Err(TableGiven::WrongSum { set }),
        None => Ok(()),
    }
}

// The first deciding set whose weights don't sum to the grid.
fn first_wrong(sets: &[FormSet], d: u32, weights: &[u32]) -> Option<SetId>
    requires order { AreSets sets.now }
    requires few_sets { length sets.now < 2 ^ 32 }
    requires count { length weights.now ≡ weight_count sets.now }
    ensures some { IfSome result (λ set. IsFirstWrong d (actions_in sets.now) weights.now set.0) }
    ensures none { IfNone result (AreWeights d (actions_in sets.now) weights.now) }
{
    for i in 0..sets.len() {
        if !sums_at(sets, d, weights, i) {
            return Some(SetId(i as u32));
        }
    }
    None
}

// Whether a set is a pass, or its weights sum to the grid.
fn sums_at(sets: &[FormSet], d: u32, weights: &[u32], set: usize) -> bool
    requires order { AreSets sets.now }
    requires there { set < length sets.now }
    requires count { length weights.now ≡ weight_count sets.now }
    ensures { result ≡ sums_to d (actions_in sets.now) weights.now set }
{
    let first = sets[set].first_weight as usize;
    let actions = sets[set].actions;
    actions < 2 || sum_is(&weights[first..first + actions as usize], d)
}

// Whether weights sum to the grid.
fn sum_is(weights: &[u32], d: u32) -> bool
    ensures { result ≡ (sum weights.now == d) }
{
    let mut total = 0u64;
    for i in 0..weights.len() {
        total = total.saturating_add(weights[i] as u64);
    }
    total == d as u64
}
