//! The last decision of a seat along a path, by the number of its weight and by that of its set.

ghost use Rattle.std.specs.Prelude.{◌≡◌, ◌<◌, ◌+◌, ◌%◌, ◌^◌, length};
ghost use Rattle.lab_form.specs.Forms.{AreSets, IsStepBelow};
ghost use Rattle.lab_form.specs.Decisions.{short_decision, decisions_above, last_set, sets_above};

use crate::{FormSet, SetId};

/// The number of the weight of the last deciding step along the parents that end with a step, plus one in 32 bits; 0 where none decides.
#[tactic(auto, using(crate::proofs::DecisionLemmas::decided, crate::proofs::DecisionLemmas::passed, crate::proofs::DecisionLemmas::no_decision))]
pub fn last_decision(sets: &[FormSet], above: &[u32], step: Option<(SetId, u32)>) -> u32
    requires order { AreSets sets.now }
    requires above { above.now ≡ decisions_above sets.now }
    requires step { IsStepBelow sets.now step }
    ensures { result ≡ short_decision sets.now step }
{
    let Some((id, action)) = step else {
        return 0;
    };
    let set = sets[id.0 as usize];
    if set.actions < 2 {
        return above[id.0 as usize];
    }
    number(set.first_weight, action)
}

/// The number of the weight of an action, plus one in 32 bits.
fn number(first_weight: u32, action: u32) -> u32
    ensures { result ≡ (first_weight + action + 1) % 2 ^ 32 }
{
    first_weight.wrapping_add(action).wrapping_add(1)
}

/// The number of the set of the last deciding step along the parents that end with a step, plus one; 0 where none decides.
#[tactic(auto, using(crate::proofs::SetLemmas::set_decided, crate::proofs::SetLemmas::set_passed, crate::proofs::SetLemmas::no_set))]
pub fn last_set(sets: &[FormSet], over: &[u32], step: Option<(SetId, u32)>) -> u32
    requires order { AreSets sets.now }
    requires few { length sets.now < 2 ^ 32 }
    requires over { over.now ≡ sets_above sets.now }
    requires step { IsStepBelow sets.now step }
    ensures { result ≡ last_set sets.now step }
{
    let Some((id, _)) = step else {
        return 0;
    };
    if sets[id.0 as usize].actions < 2 {
        return over[id.0 as usize];
    }
    id.0 + 1
}
