//! Best-response values, from the last information set back to the first.

ghost use Rattle.std.specs.Prelude.{◌≡◌, ◌⊎◌, ◌<◌, ℕ, length, slice_index};
ghost use Rattle.lab_defs_game.specs.Seats.{other};
ghost use Rattle.lab_defs_value.specs.Replies.{earned};
ghost use Rattle.lab_defs_value.specs.BestValues.{pure_reply};
ghost use Rattle.lab_defs_value.specs.Bounds.{at, Tight};
ghost use Rattle.lab_form.specs.Forms.{sets_of};
ghost use Rattle.lab_table.specs.Tables.{seat_actions, AreWeights};
ghost use Rattle.lab_best.specs.Values.{strategy_in, numbers, best_values, IsSmallFor, IsFirstBest};

use super::greatest::best_at;
use super::memo::nothing_kept;
use super::worth::set_to_zero;
use lab_form::{Form, SetId, other};
use lab_units::Worth;

/// Writes, for each set of the keeper's opponent, the most that any reply earns there against the keeper's weights on a grid of `d`.
pub fn best_table(form: &Form, keeper: u32, d: u32, weights: &[u32], out: &mut [Worth])
    requires keeper { (keeper ≡ 1) ⊎ (keeper ≡ 2) }
    requires small { IsSmallFor keeper d form.now }
    requires weights { AreWeights d (seat_actions form.now keeper) weights.now }
    requires places { length out.old ≡ length (sets_of form.now (other keeper)) }
    ensures values { numbers out.new ≡ best_values (strategy_in form.now keeper d weights.now) }
    ensures tight { Tight (strategy_in form.now keeper d weights.now) (at (numbers out.new)) }
{
    set_to_zero(out);
    let mut kept = [nothing_kept(); 256];
    let mut sums = [Worth(0); 32];
    let mut number = form.sets(other(keeper)).len();
    while number > 0 {
        number -= 1;
        let set = SetId(number as u32);
        let (value, _) = best_at(form, keeper, d, weights, out, set, &mut kept, &mut sums);
        out[number] = value;
    }
}

/// The same, and for each of these sets the first of its actions with the greatest value: the pure reply by these actions earns
/// the values.
pub fn best_reply(
    form: &Form,
    keeper: u32,
    d: u32,
    weights: &[u32],
    values: &mut [Worth],
    actions: &mut [u32],
)
    requires keeper { (keeper ≡ 1) ⊎ (keeper ≡ 2) }
    requires small { IsSmallFor keeper d form.now }
    requires weights { AreWeights d (seat_actions form.now keeper) weights.now }
    requires places { length values.old ≡ length (sets_of form.now (other keeper)) }
    requires action_places { length actions.old ≡ length (sets_of form.now (other keeper)) }
    ensures values { numbers values.new ≡ best_values (strategy_in form.now keeper d weights.now) }
    ensures tight { Tight (strategy_in form.now keeper d weights.now) (at (numbers values.new)) }
    ensures places { length actions.new ≡ length actions.old }
    ensures first { (J : ℕ) → J < length actions.new → IsFirstBest (strategy_in form.now keeper d weights.now) J (slice_index actions.new J) }
    ensures earns { (J : ℕ) → J < length actions.new
        → earned (strategy_in form.now keeper d weights.now) (pure_reply actions.new) J ≡ at (numbers values.new) J }
{
    set_to_zero(values);
    let mut kept = [nothing_kept(); 256];
    let mut sums = [Worth(0); 32];
    let mut number = form.sets(other(keeper)).len();
    while number > 0 {
        number -= 1;
        let set = SetId(number as u32);
        let (value, action) = best_at(form, keeper, d, weights, values, set, &mut kept, &mut sums);
        values[number] = value;
        actions[number] = action;
    }
}
