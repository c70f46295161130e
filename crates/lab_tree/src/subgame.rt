//! The form of a subgame.

ghost use Rattle.std.specs.Prelude.{◌≡◌, ◌⊎◌, ◌<◌, ◌≤◌, ◌^◌, [], map, length, unsigned_abs, All};
ghost use Rattle.lab_form.specs.Forms.{sets_of, actions_in, AreSets, AreRows};
ghost use Rattle.lab_form.specs.declared.items.FormRow.{FormRow};
ghost use Rattle.lab_table.specs.Tables.{all_weights};
ghost use Rattle.lab_tree.specs.Decisions.{set_decisions};
ghost use Rattle.lab_tree.specs.TreeForms.{form_sets, form_row, with_sets, with_rows};
ghost use Rattle.lab_tree.specs.Subforms.{inner_set, inner_sets, inner_row, first_of, parts_with};

use super::subgame_row::{SeatPart, inner_row, inner_step};
use crate::{RowInfo, SetInfo};
use lab_form::{Form, FormSet, Span};

/// Adds the sets of a span to a form that has none of their seat.
pub fn add_inner_sets(form: &mut Form, seat: u32, sets: &[SetInfo], span: Span)
    requires seat { (seat ≡ 1) ⊎ (seat ≡ 2) }
    requires order { span.from ≤ span.to }
    requires end { span.to ≤ length sets.now }
    requires none { sets_of form.old seat ≡ [] }
    requires room { length (inner_sets sets.now span) ≤ form.old.set_room }
    requires sets { AreSets (form_sets sets.now) }
    ensures { form.new ≡ with_sets form.old seat (inner_sets sets.now span) }
{
    add_sets(
        form,
        seat,
        &sets[span.from as usize..span.to as usize],
        span,
    );
}

// The same by the sets of the span.
fn add_sets(form: &mut Form, seat: u32, inside: &[SetInfo], span: Span)
    requires seat { (seat ≡ 1) ⊎ (seat ≡ 2) }
    requires none { sets_of form.old seat ≡ [] }
    requires room { length inside.now ≤ form.old.set_room }
    requires sets { AreSets (map (inner_set span (first_of inside.now)) inside.now) }
    ensures { form.new ≡ with_sets form.old seat (map (inner_set span (first_of inside.now)) inside.now) }
{
    let first = first_of(inside);
    for set in inside {
        form.add_set(seat, inner_set(span, first, set));
    }
}

// The place of the first weight of some sets.
fn first_of(sets: &[SetInfo]) -> u32
    ensures { result ≡ first_of sets.now }
{
    match sets.first() {
        Some(set) => set.first_weight,
        None => 0,
    }
}

// A set of a span as one of the subgame.
fn inner_set(span: Span, first: u32, set: &SetInfo) -> FormSet
    ensures { result ≡ inner_set span first set.now }
{
    let parent = match set.parent {
        Some(step) => inner_step(span, step),
        None => None,
    };
    FormSet {
        parent,
        actions: set.actions,
        first_weight: set.first_weight.saturating_sub(first),
    }
}

/// Adds rows of a tree, as those of the subgame, to a form that has none.
pub fn add_inner_rows(
    form: &mut Form,
    rows: &[RowInfo],
    keeper: u32,
    weights: &[u32],
    one: &SeatPart<'_>,
    two: &SeatPart<'_>,
)
    requires keeper { (keeper ≡ 1) ⊎ (keeper ≡ 2) }
    requires none { form.old.rows ≡ [] }
    requires room { length rows.now ≤ form.old.row_room }
    requires sets1 { AreSets (form_sets one.now.sets.now) }
    requires sets2 { AreSets (form_sets two.now.sets.now) }
    requires few1 { length one.now.sets.now < 2 ^ 32 }
    requires few2 { length two.now.sets.now < 2 ^ 32 }
    requires decisions1 { one.now.decisions.now ≡ set_decisions one.now.sets.now }
    requires decisions2 { two.now.decisions.now ≡ set_decisions two.now.sets.now }
    requires last { AreRows (form_sets one.now.sets.now) (form_sets two.now.sets.now) (map (form_row (form_sets one.now.sets.now) (form_sets two.now.sets.now) 0 0) rows.now) }
    requires weights1 { keeper ≡ 1 → length weights.now ≡ all_weights (actions_in (form_sets one.now.sets.now)) }
    requires weights2 { keeper ≡ 2 → length weights.now ≡ all_weights (actions_in (form_sets two.now.sets.now)) }
    requires there { AreRows form.old.sets1 form.old.sets2
        (map (inner_row (parts_with keeper weights.now one.now.sets.now one.now.span one.now.most two.now.sets.now two.now.span two.now.most)) rows.now) }
    requires small { All (λ (r : FormRow). unsigned_abs r.worth.0 ≤ 2 ^ 64)
        (map (inner_row (parts_with keeper weights.now one.now.sets.now one.now.span one.now.most two.now.sets.now two.now.span two.now.most)) rows.now) }
    ensures { form.new ≡ with_rows form.old
        (map (inner_row (parts_with keeper weights.now one.now.sets.now one.now.span one.now.most two.now.sets.now two.now.span two.now.most)) rows.now) }
{
    for row in rows {
        let next = inner_row(row, keeper, weights, one, two);
        form.add_row(next);
    }
}
