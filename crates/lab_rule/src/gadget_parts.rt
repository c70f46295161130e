//! What each rule puts into its gadget.

ghost use Rattle.std.specs.Prelude.{◌≡◌, ◌+◌, ◌^◌, ◌<◌, ◌≤◌, unsigned_abs};
ghost use Rattle.std.specs.Option.{option_map};
ghost use Rattle.lab_defs_value.specs.Tables.{weights_of};
ghost use Rattle.lab_defs_value.specs.Gadgets.{follow_step, terminate_step, terminate_worth};
ghost use Rattle.lab_form.specs.Forms.{last_of};
ghost use Rattle.lab_rule.specs.Names.{rule_model};
ghost use Rattle.lab_rule.specs.Gadgets.{gadget_count, gadget_actions, gadget_weights, gadget_set, step_id, raised_step, entered_set, entered_row, further_row, IsLow};

use crate::RuleName;
use lab_form::{FormRow, FormSet, SetId};
use lab_units::Worth;

/// How many gadget sets the opponent has: one before each root set, or one before them all.
pub fn gadget_count(name: RuleName, roots: u32) -> u32
    ensures { result ≡ gadget_count (rule_model name) roots }
{
    match name {
        RuleName::Cfrd | RuleName::Reach => roots,
        RuleName::Margin => 1,
    }
}

// How many actions it has at each: to terminate or to follow, or to choose a root set.
fn gadget_actions(name: RuleName, roots: u32) -> u32
    ensures { result ≡ gadget_actions (rule_model name) roots }
{
    match name {
        RuleName::Cfrd | RuleName::Reach => 2,
        RuleName::Margin => roots,
    }
}

// How many weights the first gadget sets have.
fn gadget_weights(name: RuleName, roots: u32, count: u32) -> u32
    requires { gadget_weights (rule_model name) roots count < 2 ^ 32 }
    ensures { result ≡ gadget_weights (rule_model name) roots count }
{
    count * weights_of(gadget_actions(name, roots))
}

// How many weights there are at a set: a pass has none.
fn weights_of(actions: u32) -> u32
    ensures { result ≡ weights_of actions }
{
    if actions >= 2 { actions } else { 0 }
}

/// The gadget set with a number.
pub fn gadget_set(name: RuleName, roots: u32, number: u32) -> FormSet
    requires { gadget_weights (rule_model name) roots number < 2 ^ 32 }
    ensures { result ≡ gadget_set (rule_model name) roots number }
{
    FormSet {
        parent: None,
        actions: gadget_actions(name, roots),
        first_weight: gadget_weights(name, roots, number),
    }
}

// The step to a root set: to follow at its gadget set, or to choose it.
fn follow_step(name: RuleName, root: u32) -> (SetId, u32)
    ensures { result ≡ step_id (follow_step (rule_model name) root) }
{
    match name {
        RuleName::Cfrd | RuleName::Reach => (SetId(root), 1),
        RuleName::Margin => (SetId(0), root),
    }
}

// The step of the further row of a root set: to terminate before it, or to choose it.
fn terminate_step(name: RuleName, root: u32) -> (SetId, u32)
    ensures { result ≡ step_id (terminate_step (rule_model name) root) }
{
    match name {
        RuleName::Cfrd | RuleName::Reach => (SetId(root), 0),
        RuleName::Margin => (SetId(0), root),
    }
}

// What the opponent earns in the further row of a root set with a limit: the limit, or what is left of it.
fn terminate_worth(name: RuleName, limit: Worth) -> Worth
    requires { unsigned_abs limit.0 ≤ 2 ^ 124 }
    ensures worth { result.0 ≡ terminate_worth (rule_model name) limit.0 }
    ensures small { unsigned_abs result.0 ≤ 2 ^ 124 }
{
    match name {
        RuleName::Cfrd | RuleName::Reach => limit,
        RuleName::Margin => Worth(-limit.0),
    }
}

// A step of the subgame after the gadget sets.
fn raised_step(name: RuleName, roots: u32, step: (SetId, u32)) -> (SetId, u32)
    requires { gadget_count (rule_model name) roots + step.0.0 < 2 ^ 32 }
    ensures { result ≡ raised_step (rule_model name) roots step }
{
    let (set, action) = step;
    (SetId(gadget_count(name, roots) + set.0), action)
}

/// The set of the subgame with a number, after the gadget sets: a root set is entered.
pub fn entered_set(name: RuleName, roots: u32, number: u32, set: &FormSet) -> FormSet
    requires parent { IsLow (gadget_count (rule_model name) roots) set.now.parent }
    requires weights { gadget_weights (rule_model name) roots (gadget_count (rule_model name) roots) + set.now.first_weight < 2 ^ 32 }
    ensures { result ≡ entered_set (rule_model name) roots number set.now }
{
    let parent = match set.parent {
        Some(step) => raised_step(name, roots, step),
        None => follow_step(name, number),
    };
    FormSet {
        parent: Some(parent),
        actions: set.actions,
        first_weight: gadget_weights(name, roots, gadget_count(name, roots)) + set.first_weight,
    }
}

/// A row of the subgame, after the gadget sets.
pub fn entered_row(name: RuleName, opponent: u32, roots: u32, row: &FormRow) -> FormRow
    requires { IsLow (gadget_count (rule_model name) roots) (last_of row.now opponent) }
    ensures { result ≡ entered_row (rule_model name) opponent roots row.now }
{
    let [one, two] = row.last;
    let last = if opponent == 1 {
        [raised_last(name, roots, one), two]
    } else {
        [one, raised_last(name, roots, two)]
    };
    FormRow {
        worth: row.worth,
        last,
        pads: row.pads,
    }
}

// The opponent's last step on a row of the subgame, after the gadget sets.
fn raised_last(name: RuleName, roots: u32, step: Option<(SetId, u32)>) -> Option<(SetId, u32)>
    requires { IsLow (gadget_count (rule_model name) roots) step }
    ensures { result ≡ option_map (raised_step (rule_model name) roots) step }
{
    match step {
        Some(step) => Some(raised_step(name, roots, step)),
        None => None,
    }
}

/// The further row of a root set with a limit: one action of the opponent, with all its factors and nothing of the keeper.
pub fn further_row(name: RuleName, opponent: u32, factors: u32, root: u32, limit: Worth) -> FormRow
    requires { unsigned_abs limit.0 ≤ 2 ^ 124 }
    ensures { result ≡ further_row (rule_model name) opponent factors root limit.0 }
{
    let step = Some(terminate_step(name, root));
    let worth = terminate_worth(name, limit);
    if opponent == 1 {
        FormRow {
            worth,
            last: [step, None],
            pads: [factors, 0],
        }
    } else {
        FormRow {
            worth: Worth(-worth.0),
            last: [None, step],
            pads: [0, factors],
        }
    }
}
