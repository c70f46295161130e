//! The pass over the rows: what each is worth, at the last decision of either seat on it.

ghost use Rattle.std.specs.Prelude.{ℕ, ◌≡◌, ◌+◌, ◌*◌, ◌^◌, ◌<◌, ◌≤◌, ◌==◌, pos, neg_ℤ, ◌+ℤ◌, ◌*ℤ◌, length, slice_index, if◌then◌else◌, replicate};
ghost use Rattle.std.specs.Int.RustNames.{unsigned_abs};
ghost use Rattle.lab_math.specs.Sums.{total};
ghost use Rattle.lab_defs_value.specs.Bounds.{at};
ghost use Rattle.lab_form.specs.Forms.{AreSets, AreRows, weight_count};
ghost use Rattle.lab_regret.specs.Kept.{numbers};
ghost use Rattle.lab_regret.specs.Reached.{row_part, pads_of, IsSmallRow, AreSmallRows};
ghost use Rattle.lab_regret.specs.Powers.{ArePowers};

use super::numbers::{minus, plus, times};
use super::powers::{power, powers};
use lab_form::{Form, FormRow};
use lab_units::Worth;

/// Writes to the value at the last decision of each seat on a row, by the number of its weight plus one, what the rows that end there are worth to the
/// seat, their pads and the other seat's reach counted in.
pub fn write_rows(
    form: &Form,
    rows: &[FormRow],
    grids: [u32; 2],
    reach1: &[u128],
    reach2: &[u128],
    values1: &mut [Worth],
    values2: &mut [Worth],
)
    requires rows { rows.now ≡ form.now.rows }
    requires there { AreRows form.now.sets1 form.now.sets2 rows.now }
    requires least1 { 1 ≤ slice_index grids 0 }
    requires least2 { 1 ≤ slice_index grids 1 }
    requires grid1 { slice_index grids 0 ≤ 4096 }
    requires grid2 { slice_index grids 1 ≤ 4096 }
    requires order1 { AreSets form.now.sets1 }
    requires order2 { AreSets form.now.sets2 }
    requires few1 { weight_count form.now.sets1 < 2 ^ 32 }
    requires few2 { weight_count form.now.sets2 < 2 ^ 32 }
    requires few { length form.now.rows ≤ 2 ^ 17 }
    requires small { AreSmallRows (slice_index grids 0) (slice_index grids 1) form.now.sets1 form.now.sets2 reach1.now reach2.now form.now.rows }
    requires reach1 { length reach1.now ≡ weight_count form.now.sets1 + 1 }
    requires reach2 { length reach2.now ≡ weight_count form.now.sets2 + 1 }
    requires places1 { length values1.old ≡ weight_count form.now.sets1 + 1 }
    requires places2 { length values2.old ≡ weight_count form.now.sets2 + 1 }
    ensures places1 { length values1.new ≡ length values1.old }
    ensures places2 { length values2.new ≡ length values2.old }
    ensures values1 { (k : ℕ) → at (numbers values1.new) k ≡ total (row_part (slice_index grids 0) (slice_index grids 1) form.now.sets1 form.now.sets2 1 reach2.now k) form.now.rows }
    ensures values2 { (k : ℕ) → at (numbers values2.new) k ≡ total (row_part (slice_index grids 0) (slice_index grids 1) form.now.sets1 form.now.sets2 2 reach1.now k) form.now.rows }
    ensures small1 { (k : ℕ) → unsigned_abs (at (numbers values1.new) k) ≤ 2 ^ 94 }
    ensures small2 { (k : ℕ) → unsigned_abs (at (numbers values2.new) k) ≤ 2 ^ 94 }
{
    let powers1 = powers(grids[0]);
    let powers2 = powers(grids[1]);
    let last = form.last_decisions();
    set_to_zero(values1);
    set_to_zero(values2);
    for i in 0..rows.len() {
        add_row(
            &rows[i], last[i], grids, &powers1, &powers2, reach1, reach2, values1, values2,
        );
    }
}

// Makes all values zero.
fn set_to_zero(values: &mut [Worth])
    ensures { values.new ≡ replicate (length values.old) (record { 0 = pos 0 }) }
{
    values.fill(Worth(0));
}

// Adds what a row is worth to each seat at the seat's last decision there.
fn add_row(
    row: &FormRow,
    last: [u32; 2],
    grids: [u32; 2],
    powers1: &[u128; 78],
    powers2: &[u128; 78],
    reach1: &[u128],
    reach2: &[u128],
    values1: &mut [Worth],
    values2: &mut [Worth],
)
    requires least1 { 1 ≤ slice_index grids 0 }
    requires least2 { 1 ≤ slice_index grids 1 }
    requires powers1 { ArePowers (slice_index grids 0) powers1.now }
    requires powers2 { ArePowers (slice_index grids 1) powers2.now }
    requires there1 { slice_index last 0 < length reach1.now }
    requires there2 { slice_index last 1 < length reach2.now }
    requires places1 { length values1.old ≡ length reach1.now }
    requires places2 { length values2.old ≡ length reach2.now }
    requires small { IsSmallRow (slice_index grids 0) (slice_index grids 1) row.now (slice_index reach1.now (slice_index last 0)) (slice_index reach2.now (slice_index last 1)) }
    requires room1 { unsigned_abs (at (numbers values1.old) (slice_index last 0)) ≤ 2 ^ 94 }
    requires room2 { unsigned_abs (at (numbers values2.old) (slice_index last 1)) ≤ 2 ^ 94 }
    ensures places1 { length values1.new ≡ length values1.old }
    ensures places2 { length values2.new ≡ length values2.old }
    ensures values1 { (k : ℕ) → at (numbers values1.new) k ≡ at (numbers values1.old) k +ℤ (if slice_index last 0 == k
        then row.now.worth.0 *ℤ pos (slice_index grids 0 ^ pads_of row.now 1 * slice_index grids 1 ^ pads_of row.now 2 * slice_index reach2.now (slice_index last 1)) else pos 0) }
    ensures values2 { (k : ℕ) → at (numbers values2.new) k ≡ at (numbers values2.old) k +ℤ (if slice_index last 1 == k
        then neg_ℤ row.now.worth.0 *ℤ pos (slice_index grids 0 ^ pads_of row.now 1 * slice_index grids 1 ^ pads_of row.now 2 * slice_index reach1.now (slice_index last 0)) else pos 0) }
    ensures small1 { (k : ℕ) → unsigned_abs (at (numbers values1.new) k) ≤ unsigned_abs (at (numbers values1.old) k) + 2 ^ 77 }
    ensures small2 { (k : ℕ) → unsigned_abs (at (numbers values2.new) k) ≤ unsigned_abs (at (numbers values2.old) k) + 2 ^ 77 }
{
    let [one, two] = last;
    let scale = scaled(row, grids[0], grids[1], powers1, powers2);
    add_at(values1, one as usize, scale, reach2[two as usize]);
    take_at(values2, two as usize, scale, reach1[one as usize]);
}

// What a row is worth to seat 1, its pads on grids of `d` and `e` counted in.
fn scaled(row: &FormRow, d: u32, e: u32, powers1: &[u128; 78], powers2: &[u128; 78]) -> Worth
    requires least1 { 1 ≤ d }
    requires least2 { 1 ≤ e }
    requires powers1 { ArePowers d powers1.now }
    requires powers2 { ArePowers e powers2.now }
    requires pads1 { d ^ pads_of row.now 1 ≤ 2 ^ 77 }
    requires pads2 { e ^ pads_of row.now 2 ≤ 2 ^ 77 }
    requires pads { d ^ pads_of row.now 1 * e ^ pads_of row.now 2 ≤ 2 ^ 77 }
    requires product { unsigned_abs row.now.worth.0 * (d ^ pads_of row.now 1 * e ^ pads_of row.now 2) ≤ 2 ^ 77 }
    ensures { result.0 ≡ row.now.worth.0 *ℤ pos (d ^ pads_of row.now 1 * e ^ pads_of row.now 2) }
{
    let [pad1, pad2] = row.pads;
    let one = power(powers1, pad1);
    let two = power(powers2, pad2);
    times(row.worth, product(one, two))
}

// The product of two powers.
fn product(one: u128, two: u128) -> u128
    requires { one * two ≤ 2 ^ 77 }
    ensures { result ≡ one * two }
{
    one * two
}

// Adds a number, times a reach, at a place.
fn add_at(values: &mut [Worth], place: usize, scale: Worth, reach: u128)
    requires there { place < length values.old }
    requires reach { reach ≤ 2 ^ 77 }
    requires product { unsigned_abs scale.0 * reach ≤ 2 ^ 77 }
    requires room { unsigned_abs (at (numbers values.old) place) ≤ 2 ^ 94 }
    ensures places { length values.new ≡ length values.old }
    ensures values { (k : ℕ) → at (numbers values.new) k ≡ at (numbers values.old) k +ℤ (if place == k then scale.0 *ℤ pos reach else pos 0) }
{
    values[place] = plus(values[place], times(scale, reach));
}

// Takes a number, times a reach, from what is at a place.
fn take_at(values: &mut [Worth], place: usize, scale: Worth, reach: u128)
    requires there { place < length values.old }
    requires reach { reach ≤ 2 ^ 77 }
    requires product { unsigned_abs scale.0 * reach ≤ 2 ^ 77 }
    requires room { unsigned_abs (at (numbers values.old) place) ≤ 2 ^ 94 }
    ensures places { length values.new ≡ length values.old }
    ensures values { (k : ℕ) → at (numbers values.new) k ≡ at (numbers values.old) k +ℤ (if place == k then neg_ℤ scale.0 *ℤ pos reach else pos 0) }
{
    values[place] = minus(values[place], times(scale, reach));
}
