//! How many factors the opponent brings to each row of a subgame.

ghost use Rattle.std.specs.Prelude.{◌≡◌, ◌≤◌, ◌<◌, ◌^◌, ◌++◌, ◌∷◌, [], Some, length};
ghost use Rattle.lab_defs_game.specs.Forms.{deciding};
ghost use Rattle.lab_defs_game.specs.Seats.{other};
ghost use Rattle.lab_defs_value.specs.Replies.{factors_in};
ghost use Rattle.lab_form.specs.Columns.{place_of_step};
ghost use Rattle.lab_form.specs.Forms.{actions_in, last_of, taken_model, whole_path, IsStepBelow, AreSets};
ghost use Rattle.lab_rule.specs.Factors.{pad_of, decision_at};
ghost use Rattle.lab_rule.specs.Views.{view_model};

use crate::View;
use lab_form::{FormRow, FormSet, SetId, other};

/// How many factors the keeper's opponent brings to each row: decisions and pad together.
pub fn factors(view: &View<'_>) -> u32
    ensures { result ≡ factors_in (view_model view.now).form (other view.now.keeper) }
{
    let row = &view.form.rows()[0];
    let opponent = other(view.keeper);
    decisions(view.form.sets(opponent), last_of(row, opponent)) + pad_of(row, opponent)
}

// The last step of a seat on a row.
fn last_of(row: &FormRow, seat: u32) -> Option<(SetId, u32)>
    ensures { result ≡ last_of row.now seat }
{
    let [one, two] = row.last;
    if seat == 1 { one } else { two }
}

// How many decisions a row lacks of a seat.
fn pad_of(row: &FormRow, seat: u32) -> u32
    ensures { result ≡ pad_of row.now seat }
{
    let [one, two] = row.pads;
    if seat == 1 { one } else { two }
}

// How many deciding sets are on the path that ends with a step.
fn decisions(sets: &[FormSet], last: Option<(SetId, u32)>) -> u32
    requires sets { AreSets sets.now }
    requires few { length sets.now < 2 ^ 32 }
    requires last { IsStepBelow sets.now last }
    ensures { result ≡ deciding (actions_in sets.now) (whole_path sets.now last) }
{
    let mut count = 0u32;
    let mut step = last;
    while let Some(at) = step {
        count += decision(sets, at.0);
        step = step_before(sets, at);
    }
    count
}

// 1 for a deciding set, else 0.
fn decision(sets: &[FormSet], set: SetId) -> u32
    requires { set.0 < length sets.now }
    ensures value { result ≡ decision_at sets.now set.0 }
    ensures one { result ≤ 1 }
{
    if sets[set.0 as usize].actions >= 2 {
        1
    } else {
        0
    }
}

// The step that the set of a step follows.
fn step_before(sets: &[FormSet], step: (SetId, u32)) -> Option<(SetId, u32)>
    requires sets { AreSets sets.now }
    requires there { IsStepBelow sets.now (Some step) }
    ensures there { IsStepBelow sets.now result }
    ensures earlier { place_of_step result ≤ step.0.0 }
    ensures path { whole_path sets.now (Some step) ≡ whole_path sets.now result ++ taken_model step ∷ [] }
{
    sets[step.0.0 as usize].parent
}
