//! The rows of a subgame.

ghost use Rattle.std.specs.Prelude.{◌≡◌, ◌⊎◌, ◌<◌, ◌≤◌, ◌-◌, ◌*◌, ◌*ℤ◌, ◌^◌, ◌&&◌, nat_le, pos, min, [], ◌∷◌, ◌++◌, Some, length, unsigned_abs, if◌then◌else◌};
ghost use Rattle.lab_defs_game.specs.Forms.{decides, decisions_to};
ghost use Rattle.lab_defs_value.specs.Tables.{factor};
ghost use Rattle.lab_form.specs.Columns.{place_of_step};
ghost use Rattle.lab_form.specs.Forms.{actions_in, sets_model, taken_model, whole_path, IsStepBelow, AreSets};
ghost use Rattle.lab_table.specs.Tables.{all_weights};
ghost use Rattle.lab_tree.specs.Decisions.{set_decisions};
ghost use Rattle.lab_tree.specs.TreeForms.{form_sets, last_set};
ghost use Rattle.lab_tree.specs.Subforms.{is_within, inner_step, model_actions, weight_before, decisions_inside, inner_pad, inner_row, parts_with};

use crate::{RowInfo, SetInfo};
use lab_form::{FormRow, SetId, Span};
use lab_units::Worth;

/// What a subgame takes of a seat: its sets, how many decisions are on the way up to each, those inside, and the most that it has on a row.
#[derive(Clone, Copy)]
pub struct SeatPart<'a> {
    pub sets: &'a [SetInfo],
    pub decisions: &'a [u32],
    pub span: Span,
    pub most: u32,
}

/// A row of a tree as one of the subgame.
pub fn inner_row(
    row: &RowInfo,
    keeper: u32,
    weights: &[u32],
    one: &SeatPart<'_>,
    two: &SeatPart<'_>,
) -> FormRow
    requires keeper { (keeper ≡ 1) ⊎ (keeper ≡ 2) }
    requires sets1 { AreSets (form_sets one.now.sets.now) }
    requires sets2 { AreSets (form_sets two.now.sets.now) }
    requires few1 { length one.now.sets.now < 2 ^ 32 }
    requires few2 { length two.now.sets.now < 2 ^ 32 }
    requires decisions1 { one.now.decisions.now ≡ set_decisions one.now.sets.now }
    requires decisions2 { two.now.decisions.now ≡ set_decisions two.now.sets.now }
    requires last1 { IsStepBelow (form_sets one.now.sets.now) (Some (last_set row.now 1)) }
    requires last2 { IsStepBelow (form_sets two.now.sets.now) (Some (last_set row.now 2)) }
    requires weights1 { keeper ≡ 1 → length weights.now ≡ all_weights (actions_in (form_sets one.now.sets.now)) }
    requires weights2 { keeper ≡ 2 → length weights.now ≡ all_weights (actions_in (form_sets two.now.sets.now)) }
    requires small { unsigned_abs (inner_row (parts_with keeper weights.now one.now.sets.now one.now.span one.now.most two.now.sets.now two.now.span two.now.most) row.now).worth.0 ≤ 2 ^ 64 }
    ensures { result ≡ inner_row (parts_with keeper weights.now one.now.sets.now one.now.span one.now.most two.now.sets.now two.now.span two.now.most) row.now }
{
    let [first, second] = row.last;
    let weight = if keeper == 1 {
        weight_before(one.sets, one.span, weights, first)
    } else {
        weight_before(two.sets, two.span, weights, second)
    };
    FormRow {
        worth: weighed(row.worth, weight),
        last: [inner_step(one.span, first), inner_step(two.span, second)],
        pads: [
            inner_pad(one, keeper == 1, first),
            inner_pad(two, keeper == 2, second),
        ],
    }
}

// How many decisions a row lacks of a seat: of the keeper those that the whole row has fewer than the most, of the other seat those inside.
fn inner_pad(part: &SeatPart<'_>, keeps: bool, last: (SetId, u32)) -> u32
    requires sets { AreSets (form_sets part.now.sets.now) }
    requires few { length part.now.sets.now < 2 ^ 32 }
    requires decisions { part.now.decisions.now ≡ set_decisions part.now.sets.now }
    requires last { IsStepBelow (form_sets part.now.sets.now) (Some last) }
    ensures { result ≡ inner_pad keeps part.now.sets.now part.now.span part.now.most last }
{
    part.most.saturating_sub(decisions(part, keeps, last))
}

// How many decisions of a seat are on a row: of the keeper all, of the other seat those inside.
fn decisions(part: &SeatPart<'_>, keeps: bool, last: (SetId, u32)) -> u32
    requires sets { AreSets (form_sets part.now.sets.now) }
    requires few { length part.now.sets.now < 2 ^ 32 }
    requires decisions { part.now.decisions.now ≡ set_decisions part.now.sets.now }
    requires last { IsStepBelow (form_sets part.now.sets.now) (Some last) }
    ensures { result ≡ (if keeps then decisions_to (sets_model (form_sets part.now.sets.now)) last.0.0 else decisions_inside part.now.sets.now part.now.span (Some last)) }
{
    if keeps {
        part.decisions[last.0.0 as usize]
    } else {
        decisions_inside(part.sets, part.span, last)
    }
}

/// Whether a set is one of a span.
pub fn is_within(span: Span, set: SetId) -> bool
    ensures { result ≡ is_within span set.0 }
{
    span.from <= set.0 && set.0 < span.to
}

/// A step with the number that its set has in a span, none where it is not inside.
pub fn inner_step(span: Span, step: (SetId, u32)) -> Option<(SetId, u32)>
    ensures { result ≡ inner_step span step }
{
    let (set, action) = step;
    if is_within(span, set) {
        Some((SetId(set.0 - span.from), action))
    } else {
        None
    }
}

/// The weights before a span along the path that ends with a step, multiplied; no more than the greatest number.
pub fn weight_before(sets: &[SetInfo], span: Span, weights: &[u32], last: (SetId, u32)) -> u128
    requires sets { AreSets (form_sets sets.now) }
    requires last { IsStepBelow (form_sets sets.now) (Some last) }
    requires weights { length weights.now ≡ all_weights (actions_in (form_sets sets.now)) }
    ensures { result ≡ min (weight_before sets.now span weights.now (Some last)) (2 ^ 128 - 1) }
{
    let mut weight = 1u128;
    let mut step = Some(last);
    while let Some(at) = step {
        weight = weight.saturating_mul(factor_before(sets, span, weights, at) as u128);
        step = step_before(sets, at);
    }
    weight
}

// What a step brings before a span: the factor of its action, 1 inside.
fn factor_before(sets: &[SetInfo], span: Span, weights: &[u32], step: (SetId, u32)) -> u32
    requires sets { AreSets (form_sets sets.now) }
    requires there { IsStepBelow (form_sets sets.now) (Some step) }
    requires weights { length weights.now ≡ all_weights (actions_in (form_sets sets.now)) }
    ensures { result ≡ (if is_within span step.0.0 then 1 else factor (model_actions sets.now) weights.now (taken_model step)) }
{
    if is_within(span, step.0) {
        1
    } else {
        factor(sets, weights, step)
    }
}

// The weight of an action, 1 at a pass.
fn factor(sets: &[SetInfo], weights: &[u32], step: (SetId, u32)) -> u32
    requires sets { AreSets (form_sets sets.now) }
    requires there { IsStepBelow (form_sets sets.now) (Some step) }
    requires weights { length weights.now ≡ all_weights (actions_in (form_sets sets.now)) }
    ensures { result ≡ factor (model_actions sets.now) weights.now (taken_model step) }
{
    let (id, action) = step;
    let set = sets[id.0 as usize];
    if set.actions < 2 {
        1
    } else {
        weights[set.first_weight as usize + action as usize]
    }
}

/// How many deciding sets of a span are on the path that ends with a step.
pub fn decisions_inside(sets: &[SetInfo], span: Span, last: (SetId, u32)) -> u32
    requires sets { AreSets (form_sets sets.now) }
    requires few { length sets.now < 2 ^ 32 }
    requires last { IsStepBelow (form_sets sets.now) (Some last) }
    ensures { result ≡ decisions_inside sets.now span (Some last) }
{
    let mut count = 0u32;
    let mut step = Some(last);
    while let Some(at) = step {
        count += decision_inside(sets, span, at.0);
        step = step_before(sets, at);
    }
    count
}

// 1 for a deciding set of a span, else 0.
fn decision_inside(sets: &[SetInfo], span: Span, set: SetId) -> u32
    requires { set.0 < length sets.now }
    ensures value { result ≡ (if is_within span set.0 && decides (model_actions sets.now) set.0 then 1 else 0) }
    ensures one { result ≤ 1 }
{
    if is_within(span, set) && decides(sets, set) {
        1
    } else {
        0
    }
}

// Whether a set has two or more actions.
fn decides(sets: &[SetInfo], set: SetId) -> bool
    requires { set.0 < length sets.now }
    ensures { result ≡ decides (model_actions sets.now) set.0 }
{
    sets[set.0 as usize].actions >= 2
}

// The step that the set of a step follows.
fn step_before(sets: &[SetInfo], step: (SetId, u32)) -> Option<(SetId, u32)>
    requires sets { AreSets (form_sets sets.now) }
    requires there { IsStepBelow (form_sets sets.now) (Some step) }
    ensures there { IsStepBelow (form_sets sets.now) result }
    ensures earlier { place_of_step result ≤ step.0.0 }
    ensures path { whole_path (form_sets sets.now) (Some step) ≡ whole_path (form_sets sets.now) result ++ taken_model step ∷ [] }
{
    sets[step.0.0 as usize].parent
}

/// A worth times a weight.
pub fn weighed(worth: Worth, weight: u128) -> Worth
    requires { unsigned_abs worth.0 * weight ≤ 2 ^ 64 }
    ensures { result.0 ≡ worth.0 *ℤ pos weight }
{
    if worth.0 == 0 {
        Worth(0)
    } else {
        Worth(worth.0 * weight as i128)
    }
}
