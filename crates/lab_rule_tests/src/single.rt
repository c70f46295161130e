//! A subgame with a single root set: a whole game, in which each seat decides once.

ghost use Rattle.std.specs.Prelude.{◌≡◌, IfOk};
ghost use Rattle.lab_form.specs.Forms.{empty_form};
ghost use Rattle.lab_rule.specs.Rules.{HasRoom};
ghost use Rattle.lab_rule_tests.specs.Examples.{single_sets, single_form, single_path};

use crate::items::{row, set, step};
use crate::run::run;
use lab_form::{Form, NoMemory, SetId};
use lab_rule::{PathSet, Rule, View};
use lab_units::Worth;
use std::alloc::Global;

// Adds the sets.
fn add_sets(form: &mut Form)
    requires { form.old ≡ empty_form 5 5 }
    ensures { form.new ≡ single_sets }
{
    form.add_set(1, set(None, 2, 0));
    form.add_set(2, set(None, 2, 0));
}

// Adds the rows.
fn add_rows(form: &mut Form)
    requires { form.old ≡ single_sets }
    ensures { form.new ≡ single_form }
{
    form.add_row(row(1, step(0, 0), step(0, 0), [0, 0]));
    form.add_row(row(-1, step(0, 1), step(0, 1), [0, 0]));
}

// The form.
fn form(alloc: Global) -> Result<Form, NoMemory>
    ensures { IfOk result (λ f. f ≡ single_form) }
{
    let mut form = Form::with_room(alloc, 5, 5)?;
    add_sets(&mut form);
    add_rows(&mut form);
    Ok(form)
}

// The one root set.
fn path() -> [PathSet; 1]
    ensures { result ≡ single_path }
{
    [PathSet {
        set: SetId(0),
        bound: Worth(4),
        follows: None,
    }]
}

// The view of these for seat 1.
fn view<'a>(form: &'a Form, sets: &'a [PathSet]) -> View<'a>
    requires form { form.now ≡ single_form }
    requires sets { sets.now ≡ single_path }
    ensures roots { result.roots ≡ 1 }
    ensures room { HasRoom result.form.now result.keeper result.roots (empty_form 5 5) }
{
    View {
        keeper: 1,
        grids: [2, 3],
        form,
        sets,
        steps: &[],
        roots: 1,
    }
}

// What a rule makes of the subgame with this form.
fn on_form<R: Rule>(
    alloc: Global,
    rule: &R,
    form: &Form,
    out: &mut [Worth; 1],
) -> Result<Form, NoMemory>
    requires { form.now ≡ single_form }
{
    let sets = path();
    run(alloc, rule, &view(form, &sets), out)
}

/// Writes the allowance of a rule for the root set, and returns its gadget by it.
pub fn on_single<R: Rule>(alloc: Global, rule: &R, out: &mut [Worth; 1]) -> Result<Form, NoMemory> {
    on_form(alloc, rule, &form(alloc)?, out)
}
