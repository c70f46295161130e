//! What two strategies bring on average.

ghost use Rattle.std.specs.Prelude.{◌≡◌, ◌≤◌, ◌^◌, slice_index};
ghost use Rattle.std.specs.Int.RustNames.{unsigned_abs};
ghost use Rattle.lab_defs_value.specs.Expectation.{expectation};
ghost use Rattle.lab_defs_value.specs.Smallness.{IsSmall};
ghost use Rattle.lab_form.specs.Forms.{form_model, last_of};
ghost use Rattle.lab_form.specs.Decisions.{short_decision};
ghost use Rattle.lab_best.specs.Kept.{AreKept};
ghost use Rattle.lab_best.specs.Rows.{row_term, ArePaths, IsPlayed, IsSmallTerm};
ghost use Rattle.lab_table.specs.Tables.{seat_actions, AreWeights};

use super::memo::{Kept, nothing_kept};
use super::weight::{Paths, paths_of};
use super::worth::{plus, row_weight, weigh};
use lab_form::{Form, FormRow};
use lab_units::Worth;

/// What seat 1 expects where both seats play these weights, each on its grid: the sum over all rows of the worth times both seats'
/// weights on the row, a seat's grid standing for each decision that the row lacks.
pub fn expect(form: &Form, grids: [u32; 2], one: &[u32], two: &[u32]) -> Worth
    requires small { IsSmall (slice_index grids 0) (slice_index grids 1) (form_model form.now) }
    requires one { AreWeights (slice_index grids 0) (seat_actions form.now 1) one.now }
    requires two { AreWeights (slice_index grids 1) (seat_actions form.now 2) two.now }
    ensures { result.0 ≡ expectation (slice_index grids 0) (slice_index grids 1) (form_model form.now) one.now two.now }
{
    let (paths_one, paths_two) = (paths_of(form, 1), paths_of(form, 2));
    let (mut kept_one, mut kept_two) = ([nothing_kept(); 256], [nothing_kept(); 256]);
    let rows = form.rows();
    let decisions = form.last_decisions();
    let mut sum = Worth(0);
    for number in 0..rows.len() {
        let term = row_term(
            &paths_one,
            &paths_two,
            grids,
            one,
            two,
            &rows[number],
            &decisions[number],
            &mut kept_one,
            &mut kept_two,
        );
        sum = plus(sum, term);
    }
    sum
}

/// What a row with these last decisions of both seats is worth to seat 1 by their weights.
fn row_term(
    paths_one: &Paths<'_>,
    paths_two: &Paths<'_>,
    grids: [u32; 2],
    one: &[u32],
    two: &[u32],
    row: &FormRow,
    decisions: &[u32; 2],
    kept_one: &mut [Kept],
    kept_two: &mut [Kept],
) -> Worth
    requires paths_one { ArePaths paths_one.now.sets.now paths_one.now.above.now paths_one.now.over.now }
    requires paths_two { ArePaths paths_two.now.sets.now paths_two.now.above.now paths_two.now.over.now }
    requires one { IsPlayed (slice_index grids 0) paths_one.now.sets.now one.now }
    requires two { IsPlayed (slice_index grids 1) paths_two.now.sets.now two.now }
    requires small { IsSmallTerm (slice_index grids 0) (slice_index grids 1) paths_one.now.sets.now paths_two.now.sets.now row.now }
    requires decision_one { slice_index decisions.now 0 ≡ short_decision paths_one.now.sets.now (last_of row.now 1) }
    requires decision_two { slice_index decisions.now 1 ≡ short_decision paths_two.now.sets.now (last_of row.now 2) }
    requires kept_one { AreKept (slice_index grids 0) paths_one.now.sets.now one.now kept_one.old }
    requires kept_two { AreKept (slice_index grids 1) paths_two.now.sets.now two.now kept_two.old }
    ensures value { result.0 ≡ row_term (slice_index grids 0) (slice_index grids 1) paths_one.now.sets.now paths_two.now.sets.now one.now two.now row.now }
    ensures within { unsigned_abs result.0 ≤ 2 ^ 77 }
    ensures kept_one { AreKept (slice_index grids 0) paths_one.now.sets.now one.now kept_one.new }
    ensures kept_two { AreKept (slice_index grids 1) paths_two.now.sets.now two.now kept_two.new }
{
    let weight_one = row_weight(paths_one, 1, grids[0], one, row, decisions[0], kept_one);
    let weight_two = row_weight(paths_two, 2, grids[1], two, row, decisions[1], kept_two);
    weigh(row.worth, weight_one * weight_two)
}
