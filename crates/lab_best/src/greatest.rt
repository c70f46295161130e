//! The greatest of what the actions of an information set back up.

ghost use Rattle.std.specs.Prelude.{◌≡◌, ◌⊎◌, ℕ, ℤ, ◌+◌, ◌<◌, ◌≤◌, ◌^◌, length, All};
ghost use Rattle.std.specs.Int.RustNames.{unsigned_abs};
ghost use Rattle.lab_defs_game.specs.Seats.{other};
ghost use Rattle.lab_defs_value.specs.Parents.{IsForm};
ghost use Rattle.lab_defs_value.specs.BestValues.{best_response_value};
ghost use Rattle.lab_defs_value.specs.Bounds.{at};
ghost use Rattle.lab_form.specs.Forms.{sets_of, form_model};
ghost use Rattle.lab_table.specs.Tables.{seat_actions, AreWeights};
ghost use Rattle.lab_best.specs.Kept.{AreKept};
ghost use Rattle.lab_best.specs.Parts.{IsFirstGreatest};
ghost use Rattle.lab_best.specs.Values.{strategy_in, numbers, IsSmallFor, IsFirstBest, AreBest};

use super::memo::Kept;
use super::through::back_up;
use lab_form::{Form, SetId, other};
use lab_units::Worth;

/// The best-response value at a set of the keeper's opponent, by those at the sets after it, and the first of its actions that backs
/// it up. The actions are taken 32 at a time, with `sums` to write on.
pub fn best_at(
    form: &Form,
    keeper: u32,
    d: u32,
    weights: &[u32],
    values: &[Worth],
    set: SetId,
    kept: &mut [Kept],
    sums: &mut [Worth; 32],
) -> (Worth, u32)
    requires keeper { (keeper ≡ 1) ⊎ (keeper ≡ 2) }
    requires small { IsSmallFor keeper d form.now }
    requires weights { AreWeights d (seat_actions form.now keeper) weights.now }
    requires values { length values.now ≡ length (sets_of form.now (other keeper)) }
    requires sizes { All (λ w. unsigned_abs w.0 ≤ 2 ^ 94) values.now }
    requires there { set.0 < length (sets_of form.now (other keeper)) }
    requires after { AreBest (strategy_in form.now keeper d weights.now) (set.0 + 1) (numbers values.now) }
    requires kept { AreKept d (sets_of form.now keeper) weights.now kept.old }
    ensures sound { IsForm (form_model form.now) (other keeper) }
    ensures best { result.0.0 ≡ best_response_value (strategy_in form.now keeper d weights.now) set.0 }
    ensures first { IsFirstBest (strategy_in form.now keeper d weights.now) set.0 result.1 }
    ensures small { unsigned_abs result.0.0 ≤ 2 ^ 94 }
    ensures kept { AreKept d (sets_of form.now keeper) weights.now kept.new }
{
    let actions = form.sets(other(keeper))[set.0 as usize].actions;
    let mut best = (Worth(0), 0);
    let mut first = 0u32;
    while first < actions {
        let count = (actions - first).min(32);
        let part = &mut sums[..count as usize];
        back_up(form, keeper, d, weights, values, set, first, part, kept);
        best = better(best, first, part);
        first += count;
    }
    best
}

/// The greatest of the values of the actions below `first`, which comes with the first of these that has it, and of those of the actions from `first` on.
fn better(best: (Worth, u32), first: u32, values: &[Worth]) -> (Worth, u32)
    requires some { 0 < length values.now }
    requires few { first + length values.now < 2 ^ 32 }
    ensures { (h : ℕ → ℤ) → (first ≡ 0) ⊎ IsFirstGreatest first h best.0.0 best.1 → ((k : ℕ) → k < length values.now → at (numbers values.now) k ≡ h (first + k))
        → IsFirstGreatest (first + length values.now) h result.0.0 result.1 }
{
    let place = first_greatest(values);
    let value = values[place];
    if first == 0 {
        return (value, place as u32);
    }
    if value.0 > best.0.0 {
        return (value, first + place as u32);
    }
    best
}

/// The place of the first of the greatest values.
fn first_greatest(values: &[Worth]) -> usize
    requires { 0 < length values.now }
    ensures { IsFirstGreatest (length values.now) (at (numbers values.now)) (at (numbers values.now) result) result }
{
    let mut place = 0;
    for k in 1..values.len() {
        if values[k].0 > values[place].0 {
            place = k;
        }
    }
    place
}
