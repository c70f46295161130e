//! What a row is worth by weights.

ghost use Rattle.std.specs.Prelude.{◌≡◌, ◌*◌, ◌^◌, ◌+◌, ◌<◌, ◌≤◌, pos, ◌+ℤ◌, ◌*ℤ◌, length, replicate};
ghost use Rattle.std.specs.Int.RustNames.{unsigned_abs};
ghost use Rattle.lab_form.specs.Forms.{last_of};
ghost use Rattle.lab_form.specs.Decisions.{short_decision};
ghost use Rattle.lab_defs_game.specs.Seats.{other};
ghost use Rattle.lab_defs_value.specs.Replies.{worth_to};
ghost use Rattle.lab_best.specs.Kept.{AreKept};
ghost use Rattle.lab_best.specs.Rows.{
  of_seat,
  pads_of,
  row_weight,
  row_factors,
  row_worth,
  ArePaths,
  IsPlayed,
  IsSmallRow,
};

use super::memo::{Kept, kept_weight};
use super::weight::Paths;
use lab_form::{FormRow, SetId};
use lab_units::Worth;

/// The weights of a seat, 1 or 2, on a row with this last decision of the seat, its grid of `d` for each decision that the row lacks.
#[inline(always)]
pub fn row_weight(
    paths: &Paths<'_>,
    seat: u32,
    d: u32,
    weights: &[u32],
    row: &FormRow,
    decision: u32,
    kept: &mut [Kept],
) -> u128
    requires paths { ArePaths paths.now.sets.now paths.now.above.now paths.now.over.now }
    requires played { IsPlayed d paths.now.sets.now weights.now }
    requires small { IsSmallRow seat d paths.now.sets.now row.now }
    requires decision { decision ≡ short_decision paths.now.sets.now (last_of row.now seat) }
    requires kept { AreKept d paths.now.sets.now weights.now kept.old }
    ensures value { result ≡ row_weight d seat paths.now.sets.now weights.now row.now }
    ensures within { result ≤ d ^ row_factors seat paths.now.sets.now row.now }
    ensures kept { AreKept d paths.now.sets.now weights.now kept.new }
{
    let (step, pad) = (last_of(row, seat), pads_of(row, seat));
    kept_weight(paths, d, weights, step, decision, pad, kept)
}

/// The last step of a seat, 1 or 2, on a row.
pub fn last_of(row: &FormRow, seat: u32) -> Option<(SetId, u32)>
    ensures { result ≡ last_of row.now seat }
{
    let [one, two] = row.last;
    if seat == 1 { one } else { two }
}

/// The one of two numbers that is a seat's, 1 or 2.
pub fn of_seat(numbers: &[u32; 2], seat: u32) -> u32
    ensures { result ≡ of_seat numbers.now seat }
{
    let [one, two] = *numbers;
    if seat == 1 { one } else { two }
}

/// How many factors of the grid a seat, 1 or 2, still brings to a row.
fn pads_of(row: &FormRow, seat: u32) -> u32
    ensures { result ≡ pads_of row.now seat }
{
    of_seat(&row.pads, seat)
}

/// A worth, times a weight.
pub fn weigh(worth: Worth, weight: u128) -> Worth
    requires weight { weight ≤ 2 ^ 77 }
    requires product { unsigned_abs worth.0 * weight ≤ 2 ^ 77 }
    ensures { result.0 ≡ worth.0 *ℤ pos weight }
{
    Worth(worth.0 * weight as i128)
}

/// What a row with this last decision of the keeper is worth to the keeper's opponent, by the keeper's weights on a grid of `d`.
pub fn row_worth(
    paths: &Paths<'_>,
    keeper: u32,
    d: u32,
    weights: &[u32],
    row: &FormRow,
    decision: u32,
    kept: &mut [Kept],
) -> Worth
    requires paths { ArePaths paths.now.sets.now paths.now.above.now paths.now.over.now }
    requires played { IsPlayed d paths.now.sets.now weights.now }
    requires small { IsSmallRow keeper d paths.now.sets.now row.now }
    requires decision { decision ≡ short_decision paths.now.sets.now (last_of row.now keeper) }
    requires kept { AreKept d paths.now.sets.now weights.now kept.old }
    ensures value { result.0 ≡ row_worth keeper d paths.now.sets.now weights.now row.now }
    ensures within { unsigned_abs result.0 ≤ 2 ^ 77 }
    ensures kept { AreKept d paths.now.sets.now weights.now kept.new }
{
    let weight = row_weight(paths, keeper, d, weights, row, decision, kept);
    weigh(to_opponent(row.worth, keeper), weight)
}

/// What is worth so much to seat 1, to the opponent of the keeper, seat 1 or 2.
fn to_opponent(worth: Worth, keeper: u32) -> Worth
    requires { unsigned_abs worth.0 ≤ 2 ^ 77 }
    ensures { result.0 ≡ worth_to (other keeper) worth.0 }
{
    if keeper == 1 { Worth(-worth.0) } else { worth }
}

/// Makes all worths zero.
pub fn set_to_zero(worths: &mut [Worth])
    ensures { worths.new ≡ replicate (length worths.old) (record { 0 = pos 0 }) }
{
    worths.fill(Worth(0));
}

/// The sum of two worths.
pub fn plus(one: Worth, two: Worth) -> Worth
    requires { unsigned_abs one.0 + unsigned_abs two.0 < 2 ^ 127 }
    ensures { result.0 ≡ one.0 +ℤ two.0 }
{
    Worth(one.0 + two.0)
}
