//! A subgame with two root sets.

ghost use Rattle.std.specs.Prelude.{◌≡◌, IfOk};
ghost use Rattle.lab_form.specs.Forms.{empty_form};
ghost use Rattle.lab_rule.specs.Rules.{HasRoom};
ghost use Rattle.lab_rule_tests.specs.Examples.{two_sets, two_form, two_path, two_steps};

use crate::items::{row, set, step};
use crate::run::run;
use lab_form::{Form, NoMemory, SetId};
use lab_rule::{PathSet, PathStep, Rule, View};
use lab_units::Worth;
use std::alloc::Global;

// Adds the sets: seat 1 decides once; seat 2 decides at the first root set and passes at the second.
fn add_sets(form: &mut Form)
    requires { form.old ≡ empty_form 5 5 }
    ensures { form.new ≡ two_sets }
{
    form.add_set(1, set(None, 2, 0));
    form.add_set(2, set(None, 2, 0));
    form.add_set(2, set(None, 1, 2));
}

// Adds the rows.
fn add_rows(form: &mut Form)
    requires { form.old ≡ two_sets }
    ensures { form.new ≡ two_form }
{
    form.add_row(row(2, step(0, 0), step(0, 0), [0, 0]));
    form.add_row(row(-3, step(0, 1), step(0, 1), [0, 0]));
    form.add_row(row(1, step(0, 0), step(1, 0), [0, 1]));
}

// The form.
fn form(alloc: Global) -> Result<Form, NoMemory>
    ensures { IfOk result (λ f. f ≡ two_form) }
{
    let mut form = Form::with_room(alloc, 5, 5)?;
    add_sets(&mut form);
    add_rows(&mut form);
    Ok(form)
}

// The root sets follow an action that backs up 3 less than the bound of its set.
fn path() -> [PathSet; 3]
    ensures { result ≡ two_path }
{
    [
        PathSet {
            set: SetId(0),
            bound: Worth(5),
            follows: None,
        },
        PathSet {
            set: SetId(3),
            bound: Worth(1),
            follows: Some((0, 0)),
        },
        PathSet {
            set: SetId(4),
            bound: Worth(3),
            follows: Some((0, 1)),
        },
    ]
}

// That action.
fn steps() -> [PathStep; 1]
    ensures { result ≡ two_steps }
{
    [PathStep {
        from: 0,
        action: 1,
        through: Worth(2),
        count: 2,
    }]
}

// The view of these for seat 1.
fn view<'a>(form: &'a Form, sets: &'a [PathSet], steps: &'a [PathStep]) -> View<'a>
    requires form { form.now ≡ two_form }
    requires sets { sets.now ≡ two_path }
    requires steps { steps.now ≡ two_steps }
    ensures roots { result.roots ≡ 2 }
    ensures room { HasRoom result.form.now result.keeper result.roots (empty_form 5 5) }
{
    View {
        keeper: 1,
        grids: [2, 3],
        form,
        sets,
        steps,
        roots: 2,
    }
}

// What a rule makes of the subgame with this form.
fn on_form<R: Rule>(
    alloc: Global,
    rule: &R,
    form: &Form,
    out: &mut [Worth; 2],
) -> Result<Form, NoMemory>
    requires { form.now ≡ two_form }
{
    let (sets, steps) = (path(), steps());
    run(alloc, rule, &view(form, &sets, &steps), out)
}

/// Writes the allowances of a rule for both root sets, and returns its gadget by them.
pub fn on_two<R: Rule>(alloc: Global, rule: &R, out: &mut [Worth; 2]) -> Result<Form, NoMemory> {
    on_form(alloc, rule, &form(alloc)?, out)
}
