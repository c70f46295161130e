//! What each action of an information set backs up.

ghost use Rattle.std.specs.Prelude.{◌≡◌, ◌⊎◌, ℕ, ◌+◌, ◌<◌, ◌≤◌, ◌^◌, ◌+ℤ◌, length, map, slice_index, All};
ghost use Rattle.std.specs.Int.RustNames.{unsigned_abs};
ghost use Rattle.std.specs.List.{range_with_len};
ghost use Rattle.lab_math.specs.Sums.{sum_over};
ghost use Rattle.lab_defs_game.specs.Seats.{other};
ghost use Rattle.lab_defs_value.specs.Parents.{IsForm};
ghost use Rattle.lab_defs_value.specs.Bounds.{at, through, through_rows};
ghost use Rattle.lab_defs_value.specs.Laws.{worth_sizes};
ghost use Rattle.lab_form.specs.Forms.{sets_of, last_of, form_model, AreSets, AreRows};
ghost use Rattle.lab_form.specs.Decisions.{row_decisions, short_decision};
ghost use Rattle.lab_best.specs.Kept.{AreKept};
ghost use Rattle.lab_best.specs.Rows.{row_worth, ArePaths, IsPlayed, IsSmallRow};
ghost use Rattle.lab_table.specs.Tables.{seat_actions, AreWeights};
ghost use Rattle.lab_best.specs.Parts.{is_among, part_at, children_value};
ghost use Rattle.lab_best.specs.Values.{strategy_in, numbers, IsSmallFor};

use super::memo::{Kept, nothing_kept};
use super::weight::{Paths, paths_of};
use super::worth::{last_of, of_seat, plus, row_worth, set_to_zero};
use lab_form::{Form, FormRow, FormSet, SetId, other};
use lab_units::Worth;

/// Writes what each action of a set of the keeper's opponent, from one on, backs up: the values of the sets that follow it directly, and
/// what the rows that end with it are worth to the opponent, the keeper's weights on a grid of `d` counted in.
pub fn action_values(
    form: &Form,
    keeper: u32,
    d: u32,
    weights: &[u32],
    values: &[Worth],
    set: SetId,
    first: u32,
    out: &mut [Worth],
)
    requires keeper { (keeper ≡ 1) ⊎ (keeper ≡ 2) }
    requires small { IsSmallFor keeper d form.now }
    requires weights { AreWeights d (seat_actions form.now keeper) weights.now }
    requires values { length values.now ≡ length (sets_of form.now (other keeper)) }
    requires sizes { sum_over (λ w. unsigned_abs w.0) values.now ≤ 2 ^ 126 }
    requires there { set.0 < length (sets_of form.now (other keeper)) }
    requires actions { first + length out.old ≤ slice_index (seat_actions form.now (other keeper)) set.0 }
    ensures values { numbers out.new ≡ map (through (strategy_in form.now keeper d weights.now) (at (numbers values.now)) set.0) (range_with_len first (length out.old)) }
    ensures sizes { All (λ w. unsigned_abs w.0 ≤ sum_over (λ v. unsigned_abs v.0) values.now + 2 ^ 94) out.new }
{
    let mut kept = [nothing_kept(); 8];
    back_up(form, keeper, d, weights, values, set, first, out, &mut kept);
}

/// The same, with what is known of the form by which these values are the best ones where the others are.
#[inline(always)]
pub fn back_up(
    form: &Form,
    keeper: u32,
    d: u32,
    weights: &[u32],
    values: &[Worth],
    set: SetId,
    first: u32,
    out: &mut [Worth],
    kept: &mut [Kept],
)
    requires keeper { (keeper ≡ 1) ⊎ (keeper ≡ 2) }
    requires small { IsSmallFor keeper d form.now }
    requires weights { AreWeights d (seat_actions form.now keeper) weights.now }
    requires values { length values.now ≡ length (sets_of form.now (other keeper)) }
    requires sizes { sum_over (λ w. unsigned_abs w.0) values.now ≤ 2 ^ 126 }
    requires there { set.0 < length (sets_of form.now (other keeper)) }
    requires actions { first + length out.old ≤ slice_index (seat_actions form.now (other keeper)) set.0 }
    requires kept { AreKept d (sets_of form.now keeper) weights.now kept.old }
    ensures sound { IsForm (form_model form.now) (other keeper) }
    ensures kept { AreKept d (sets_of form.now keeper) weights.now kept.new }
    ensures small { worth_sizes (strategy_in form.now keeper d weights.now) ≤ 2 ^ 94 }
    ensures values { numbers out.new ≡ map (through (strategy_in form.now keeper d weights.now) (at (numbers values.now)) set.0) (range_with_len first (length out.old)) }
{
    let seat = other(keeper);
    let replies = form.sets(seat);
    let paths = paths_of(form, keeper);
    let rows = form.rows();
    let decisions = form.last_decisions();
    set_to_zero(out);
    add_children(form, seat, replies, values, set, first, out);
    add_rows(
        form, keeper, &paths, rows, decisions, d, weights, set, first, out, kept,
    );
}

/// Adds the values of the sets that follow each action directly.
fn add_children(
    form: &Form,
    seat: u32,
    sets: &[FormSet],
    values: &[Worth],
    set: SetId,
    first: u32,
    out: &mut [Worth],
)
    requires seat { (seat ≡ 1) ⊎ (seat ≡ 2) }
    requires sets { sets.now ≡ sets_of form.now seat }
    requires values { length values.now ≡ length (sets_of form.now seat) }
    requires there { set.0 < length (sets_of form.now seat) }
    requires sizes { (i : ℕ) → i < length out.old → unsigned_abs (at (numbers out.old) i) + sum_over (λ w. unsigned_abs w.0) values.now ≤ 2 ^ 126 }
    ensures places { length out.new ≡ length out.old }
    ensures values { (i : ℕ) → i < length out.old → at (numbers out.new) i ≡ at (numbers out.old) i +ℤ children_value (sets_of form.now seat) (at (numbers values.now)) set.0 (first + i) }
    ensures sizes { (i : ℕ) → i < length out.old → unsigned_abs (at (numbers out.new) i) ≤ 2 ^ 126 }
{
    for child in form.children(seat, Some(set)) {
        add_at(
            out,
            first,
            sets[child as usize].parent,
            values[child as usize],
        );
    }
}

/// Adds what the rows that end with each action are worth to the keeper's opponent.
fn add_rows(
    form: &Form,
    keeper: u32,
    paths: &Paths<'_>,
    rows: &[FormRow],
    decisions: &[[u32; 2]],
    d: u32,
    weights: &[u32],
    set: SetId,
    first: u32,
    out: &mut [Worth],
    kept: &mut [Kept],
)
    requires keeper { (keeper ≡ 1) ⊎ (keeper ≡ 2) }
    requires small { IsSmallFor keeper d form.now }
    requires sets { paths.now.sets.now ≡ sets_of form.now keeper }
    requires paths { ArePaths paths.now.sets.now paths.now.above.now paths.now.over.now }
    requires played { IsPlayed d paths.now.sets.now weights.now }
    requires rows { rows.now ≡ form.now.rows }
    requires decisions { decisions.now ≡ row_decisions form.now.sets1 form.now.sets2 form.now.rows }
    requires row_steps { AreRows form.now.sets1 form.now.sets2 rows.now }
    requires order { AreSets (sets_of form.now (other keeper)) }
    requires there { set.0 < length (sets_of form.now (other keeper)) }
    requires sizes { (i : ℕ) → i < length out.old → unsigned_abs (at (numbers out.old) i) ≤ 2 ^ 126 }
    requires kept { AreKept d paths.now.sets.now weights.now kept.old }
    ensures kept { AreKept d paths.now.sets.now weights.now kept.new }
    ensures places { length out.new ≡ length out.old }
    ensures values { (i : ℕ) → i < length out.old → at (numbers out.new) i ≡ at (numbers out.old) i +ℤ through_rows (strategy_in form.now keeper d weights.now) set.0 (first + i) }
{
    for number in form.rows_at(other(keeper), Some(set)) {
        let row = &rows[number as usize];
        let decision = of_seat(&decisions[number as usize], keeper);
        add_row(paths, keeper, d, weights, row, decision, first, out, kept);
    }
}

/// Adds what a row is worth to the keeper's opponent at the place of its last action, where that is among the actions from `first` on.
fn add_row(
    paths: &Paths<'_>,
    keeper: u32,
    d: u32,
    weights: &[u32],
    row: &FormRow,
    decision: u32,
    first: u32,
    out: &mut [Worth],
    kept: &mut [Kept],
)
    requires paths { ArePaths paths.now.sets.now paths.now.above.now paths.now.over.now }
    requires played { IsPlayed d paths.now.sets.now weights.now }
    requires small { IsSmallRow keeper d paths.now.sets.now row.now }
    requires decision { decision ≡ short_decision paths.now.sets.now (last_of row.now keeper) }
    requires sizes { (i : ℕ) → i < length out.old → unsigned_abs (at (numbers out.old) i) + 2 ^ 77 < 2 ^ 127 }
    requires kept { AreKept d paths.now.sets.now weights.now kept.old }
    ensures kept { AreKept d paths.now.sets.now weights.now kept.new }
    ensures places { length out.new ≡ length out.old }
    ensures values { (i : ℕ) → i < length out.old → at (numbers out.new) i ≡ at (numbers out.old) i +ℤ part_at first (last_of row.now (other keeper)) (row_worth keeper d paths.now.sets.now weights.now row.now) i }
    ensures sizes { (i : ℕ) → i < length out.old → unsigned_abs (at (numbers out.new) i) ≤ unsigned_abs (at (numbers out.old) i) + 2 ^ 77 }
{
    let step = last_of(row, other(keeper));
    if is_among(step, first, out.len()) {
        let worth = row_worth(paths, keeper, d, weights, row, decision, kept);
        add_at(out, first, step, worth);
    }
}

/// Whether the action of a step is among so many from `first` on.
fn is_among(step: Option<(SetId, u32)>, first: u32, count: usize) -> bool
    ensures { result ≡ is_among first count step }
{
    match step {
        Some((_, action)) => action >= first && ((action - first) as usize) < count,
        None => false,
    }
}

/// Adds a value at the place of a step's action, where it is among the actions from `first` on.
fn add_at(out: &mut [Worth], first: u32, step: Option<(SetId, u32)>, value: Worth)
    requires { (i : ℕ) → i < length out.old → unsigned_abs (at (numbers out.old) i) + unsigned_abs value.0 < 2 ^ 127 }
    ensures places { length out.new ≡ length out.old }
    ensures values { (i : ℕ) → i < length out.old → at (numbers out.new) i ≡ at (numbers out.old) i +ℤ part_at first step value.0 i }
{
    let Some((_, action)) = step else {
        return;
    };
    if !is_among(step, first, out.len()) {
        return;
    }
    let place = (action - first) as usize;
    out[place] = plus(out[place], value);
}
