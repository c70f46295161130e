//! The form of a tree.

ghost use Rattle.std.specs.Prelude.{◌≡◌, ◌<◌, ◌≤◌, ◌^◌, [], map, length, slice_index, IfOk};
ghost use Rattle.std.specs.List.{range_with_len};
ghost use Rattle.lab_defs_game.specs.Forms.{decisions_to};
ghost use Rattle.lab_form.specs.Forms.{sets_of, sets_model, AreSets, AreRows};
ghost use Rattle.lab_world.specs.Seats.{seat_number};
ghost use Rattle.lab_tree.specs.Decisions.{counted_row};
ghost use Rattle.lab_tree.specs.TreeForms.{form_sets, form_row, form_in, with_sets, with_rows, last_set, AreFormParts};

use super::sets::SeatSets;
use crate::{NoMemory, RowInfo, SetInfo};
use lab_form::{Form, FormRow, FormSet};
use lab_world::Seat;
use std::alloc::Global;

/// The form of the sets of each seat and of rows; a row lacks as many decisions as it has fewer than the most of the seat.
pub fn form_of(
    alloc: Global,
    one: &SeatSets,
    two: &SeatSets,
    rows: &[RowInfo],
    most: [u32; 2],
) -> Result<Form, NoMemory>
    requires parts { AreFormParts one.now.sets two.now.sets rows.now }
    requires few1 { length one.now.sets < 2 ^ 32 }
    requires few2 { length two.now.sets < 2 ^ 32 }
    requires few { length rows.now < 2 ^ 32 }
    ensures { IfOk result (λ f. f ≡ form_in one.now.sets two.now.sets (slice_index most 0) (slice_index most 1) rows.now) }
{
    let room = one.sets().len().max(two.sets().len());
    let Ok(form) = Form::with_room(alloc, room as u32, rows.len() as u32) else {
        return Err(NoMemory);
    };
    let mut form = form;
    add_sets(&mut form, Seat::One, one.sets());
    add_sets(&mut form, Seat::Two, two.sets());
    add_rows(&mut form, rows, one.decisions(), two.decisions(), most);
    Ok(form)
}

// Adds the sets of a seat to a form that has none of it.
fn add_sets(form: &mut Form, seat: Seat, sets: &[SetInfo])
    requires none { sets_of form.old (seat_number seat) ≡ [] }
    requires room { length sets.now ≤ form.old.set_room }
    requires sets { AreSets (form_sets sets.now) }
    ensures { form.new ≡ with_sets form.old (seat_number seat) (form_sets sets.now) }
{
    for set in sets {
        form.add_set(
            seat.number(),
            FormSet {
                parent: set.parent,
                actions: set.actions,
                first_weight: set.first_weight,
            },
        );
    }
}

// Adds rows to a form that has none, with the deciding sets of each seat on the way up to each set.
fn add_rows(form: &mut Form, rows: &[RowInfo], counts1: &[u32], counts2: &[u32], most: [u32; 2])
    requires none { form.old.rows ≡ [] }
    requires room { length rows.now ≤ form.old.row_room }
    requires there { AreRows form.old.sets1 form.old.sets2 (map (form_row form.old.sets1 form.old.sets2 0 0) rows.now) }
    requires counts1 { counts1.now ≡ map (decisions_to (sets_model form.old.sets1)) (range_with_len 0 (length form.old.sets1)) }
    requires counts2 { counts2.now ≡ map (decisions_to (sets_model form.old.sets2)) (range_with_len 0 (length form.old.sets2)) }
    ensures { form.new
        ≡ with_rows form.old (map (form_row form.old.sets1 form.old.sets2 (slice_index most 0) (slice_index most 1)) rows.now) }
{
    for row in rows {
        let next = next_row(row, counts1, counts2, most);
        form.add_row(next);
    }
}

// A row of a form from that of a tree.
fn next_row(row: &RowInfo, counts1: &[u32], counts2: &[u32], most: [u32; 2]) -> FormRow
    requires there1 { (last_set row.now 1).0.0 < length counts1.now }
    requires there2 { (last_set row.now 2).0.0 < length counts2.now }
    ensures { result ≡ counted_row counts1.now counts2.now (slice_index most 0) (slice_index most 1) row.now }
{
    let [first, second] = row.last;
    FormRow {
        worth: row.worth,
        last: [Some(first), Some(second)],
        pads: [
            most[0].saturating_sub(counts1[first.0.0 as usize]),
            most[1].saturating_sub(counts2[second.0.0 as usize]),
        ],
    }
}
