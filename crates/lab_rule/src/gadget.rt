//! The gadget of a rule: the form of a subgame where the opponent first chooses whether, or where, to enter it.

ghost use Rattle.std.specs.Prelude.{◌≡◌, ◌⊎◌, ◌+◌, ◌^◌, ◌<◌, ◌≤◌, [], ◌++◌, length, map, unsigned_abs, pos, ◌+ℤ◌, ◌≤ℤ◌};
ghost use Rattle.lab_defs_game.specs.Seats.{other};
ghost use Rattle.lab_defs_value.specs.Replies.{factors_in};
ghost use Rattle.lab_defs_value.specs.Views.{root_limit, view_gadget};
ghost use Rattle.lab_form.specs.Forms.{form_model, sets_of, weight_count, AreSets, AreRows};
ghost use Rattle.lab_rule.specs.Names.{rule_model};
ghost use Rattle.lab_rule.specs.Views.{view_model};
ghost use Rattle.lab_rule.specs.Rules.{sizes_of, AreAllowances, HasRoom};
ghost use Rattle.lab_rule.specs.Gadgets.{
  with_sets,
  with_rows,
  gadget_count,
  gadget_weights,
  first_sets,
  opponent_sets,
  entered_row,
  further_rows,
  AreLow,
  RootsFirst,
};

use super::factors::factors;
use super::gadget_parts::{entered_row, entered_set, further_row, gadget_count, gadget_set};
use crate::{RuleName, View};
use lab_form::{Form, FormRow, FormSet, other};
use lab_units::Worth;

/// Writes the gadget of the rule with a name over a form, by an allowance for each root set; the form keeps its room.
pub fn write_gadget(name: RuleName, view: &View<'_>, allowances: &[Worth], form: &mut Form)
    requires count { length allowances.now ≡ view.now.roots }
    requires sizes { AreAllowances allowances.now }
    requires room { HasRoom view.now.form.now view.now.keeper view.now.roots form.old }
    ensures gadget { form_model form.new ≡ view_gadget (rule_model name) (view_model view.now) (sizes_of allowances.now) }
    ensures set_room { form.new.set_room ≡ form.old.set_room }
    ensures row_room { form.new.row_room ≡ form.old.row_room }
{
    let opponent = other(view.keeper);
    form.clear();
    copy_sets(form, view.keeper, view.form.sets(view.keeper));
    add_gadget_sets(name, form, opponent, view.roots);
    add_entered_sets(name, form, opponent, view.roots, view.form.sets(opponent));
    add_entered_rows(name, form, opponent, view.roots, view.form.rows());
    add_further_rows(name, form, view, allowances);
}

// Adds the sets of a seat, as they are, to a form that has none of its sets.
fn copy_sets(form: &mut Form, seat: u32, sets: &[FormSet])
    requires seat { (seat ≡ 1) ⊎ (seat ≡ 2) }
    requires none { sets_of form.old seat ≡ [] }
    requires room { length sets.now ≤ form.old.set_room }
    requires order { AreSets sets.now }
    ensures { form.new ≡ with_sets form.old seat sets.now }
{
    for set in sets {
        form.add_set(seat, *set);
    }
}

// Adds the gadget sets to a form that has no set of their seat.
fn add_gadget_sets(name: RuleName, form: &mut Form, seat: u32, roots: u32)
    requires seat { (seat ≡ 1) ⊎ (seat ≡ 2) }
    requires none { sets_of form.old seat ≡ [] }
    requires some { 1 ≤ roots }
    requires room { gadget_count (rule_model name) roots ≤ form.old.set_room }
    requires weights { gadget_weights (rule_model name) roots (gadget_count (rule_model name) roots) < 2 ^ 32 }
    ensures { form.new ≡ with_sets form.old seat (first_sets (rule_model name) roots (gadget_count (rule_model name) roots)) }
{
    for number in 0..gadget_count(name, roots) {
        form.add_set(seat, gadget_set(name, roots, number));
    }
}

// Adds the sets of the subgame to a form that has the gadget sets of their seat.
fn add_entered_sets(name: RuleName, form: &mut Form, seat: u32, roots: u32, sets: &[FormSet])
    requires seat { (seat ≡ 1) ⊎ (seat ≡ 2) }
    requires gadget { sets_of form.old seat ≡ first_sets (rule_model name) roots (gadget_count (rule_model name) roots) }
    requires room { gadget_count (rule_model name) roots + length sets.now ≤ form.old.set_room }
    requires few { form.old.set_room < 2 ^ 32 }
    requires weights { gadget_weights (rule_model name) roots (gadget_count (rule_model name) roots) + weight_count sets.now < 2 ^ 32 }
    requires order { AreSets sets.now }
    requires roots { RootsFirst roots sets.now }
    ensures { form.new ≡ with_sets form.old seat (opponent_sets (rule_model name) roots sets.now) }
{
    for number in 0..sets.len() {
        let set = entered_set(name, roots, number as u32, &sets[number]);
        form.add_set(seat, set);
    }
}

// Adds the rows of the subgame to a form that has the sets of the gadget and no row.
fn add_entered_rows(name: RuleName, form: &mut Form, opponent: u32, roots: u32, rows: &[FormRow])
    requires none { form.old.rows ≡ [] }
    requires room { length rows.now ≤ form.old.row_room }
    requires low { AreLow (gadget_count (rule_model name) roots) opponent rows.now }
    requires there { AreRows form.old.sets1 form.old.sets2 (map (entered_row (rule_model name) opponent roots) rows.now) }
    ensures { form.new ≡ with_rows form.old (map (entered_row (rule_model name) opponent roots) rows.now) }
{
    for row in rows {
        form.add_row(entered_row(name, opponent, roots, row));
    }
}

// Adds the further row of each root set.
fn add_further_rows(name: RuleName, form: &mut Form, view: &View<'_>, allowances: &[Worth])
    requires count { length allowances.now ≡ view.now.roots }
    requires sizes { AreAllowances allowances.now }
    requires room { length form.old.rows + view.now.roots ≤ form.old.row_room }
    requires there { AreRows form.old.sets1 form.old.sets2 (further_rows (rule_model name) (other view.now.keeper) (factors_in (view_model view.now).form (other view.now.keeper))
        (root_limit (view_model view.now) (sizes_of allowances.now)) view.now.roots) }
    ensures { form.new ≡ with_rows form.old (form.old.rows ++ further_rows (rule_model name) (other view.now.keeper) (factors_in (view_model view.now).form (other view.now.keeper))
        (root_limit (view_model view.now) (sizes_of allowances.now)) view.now.roots) }
{
    let opponent = other(view.keeper);
    let factors = factors(view);
    for root in 0..view.roots {
        let limit = root_limit(view, allowances, root);
        form.add_row(further_row(name, opponent, factors, root, limit));
    }
}

// The limit of a root set: its bound, raised by its allowance.
fn root_limit(view: &View<'_>, allowances: &[Worth], root: u32) -> Worth
    requires root { root < view.now.roots }
    requires count { length allowances.now ≡ view.now.roots }
    requires sizes { AreAllowances allowances.now }
    ensures limit { result.0 ≡ root_limit (view_model view.now) (sizes_of allowances.now) root }
    ensures small { unsigned_abs result.0 ≤ 2 ^ 124 }
{
    let above = view.sets.len() - view.roots as usize;
    raised(
        view.sets[above + root as usize].bound,
        allowances[root as usize],
    )
}

// A bound raised by an allowance.
fn raised(bound: Worth, allowance: Worth) -> Worth
    requires bound { unsigned_abs bound.0 ≤ 2 ^ 117 }
    requires allowance { (pos 0 ≤ℤ allowance.0) × (allowance.0 ≤ℤ pos (2 ^ 123)) }
    ensures sum { result.0 ≡ bound.0 +ℤ allowance.0 }
    ensures small { unsigned_abs result.0 ≤ 2 ^ 124 }
{
    Worth(bound.0 + allowance.0)
}
