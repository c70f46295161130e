//! How many decisions are on the way up to each set: a row of a form lacks those that its last sets have fewer than the most.

ghost use Rattle.std.specs.Prelude.{◌≡◌, ◌<◌, ◌≤◌, ◌^◌, map, length, take, IfOk};
ghost use Rattle.std.specs.List.{range_with_len};
ghost use Rattle.lab_defs_game.specs.Forms.{actions_in, deciding, decisions_to};
ghost use Rattle.lab_form.specs.Forms.{sets_model, whole_path, IsStepBelow, AreSets};
ghost use Rattle.lab_tree.specs.Decisions.{set_decisions};
ghost use Rattle.lab_tree.specs.TreeForms.{form_sets};

use crate::SetInfo;
use lab_form::SetId;
use std::alloc::{AllocError, Global};

/// How many deciding sets the way up to each set has, the set included.
pub fn decision_counts(alloc: Global, sets: &[SetInfo]) -> Result<Vec<u32>, AllocError>
    requires sets { AreSets (form_sets sets.now) }
    requires few { length sets.now < 2 ^ 32 }
    ensures { IfOk result (λ c. c.items ≡ set_decisions sets.now) }
{
    let mut counts = Vec::with_capacity(alloc, sets.len())?;
    for _ in 0..sets.len() {
        counts.push(decision_count(sets, counts.as_slice()))?;
    }
    Ok(counts)
}

// That of the first set that has none yet.
fn decision_count(sets: &[SetInfo], counts: &[u32]) -> u32
    requires sets { AreSets (form_sets sets.now) }
    requires few { length sets.now < 2 ^ 32 }
    requires counts { counts.now ≡ map (decisions_to (sets_model (form_sets sets.now))) (range_with_len 0 (length counts.now)) }
    requires below { length counts.now < length sets.now }
    ensures { result ≡ decisions_to (sets_model (form_sets sets.now)) (length counts.now) }
{
    let set = sets[counts.len()];
    let before = decisions_before(sets, counts, set.parent);
    if set.actions >= 2 { before + 1 } else { before }
}

// How many deciding sets the way up to a step has.
fn decisions_before(sets: &[SetInfo], counts: &[u32], step: Option<(SetId, u32)>) -> u32
    requires sets { AreSets (form_sets sets.now) }
    requires counts { counts.now ≡ map (decisions_to (sets_model (form_sets sets.now))) (range_with_len 0 (length counts.now)) }
    requires below { IsStepBelow (take (length counts.now) (form_sets sets.now)) step }
    requires within { length counts.now ≤ length sets.now }
    ensures { result
        ≡ deciding (actions_in (sets_model (form_sets sets.now))) (whole_path (form_sets sets.now) step) }
{
    let Some(last) = step else {
        return 0;
    };
    counts[last.0.0 as usize]
}
