//! What a rule makes of a view.

ghost use Rattle.std.specs.Prelude.{◌≡◌, length};
ghost use Rattle.lab_form.specs.Forms.{empty_form};
ghost use Rattle.lab_rule.specs.Rules.{HasRoom};

use lab_form::{Form, NoMemory};
use lab_rule::{Rule, View};
use lab_units::Worth;
use std::alloc::Global;

/// Writes the allowances of a rule, and returns its gadget by them.
pub fn run<R: Rule>(
    alloc: Global,
    rule: &R,
    view: &View<'_>,
    out: &mut [Worth],
) -> Result<Form, NoMemory>
    requires places { length out.old ≡ view.now.roots }
    requires room { HasRoom view.now.form.now view.now.keeper view.now.roots (empty_form 5 5) }
{
    let mut form = Form::with_room(alloc, 5, 5)?;
    rule.allowances(view, out);
    rule.gadget(view, out, &mut form);
    Ok(form)
}
