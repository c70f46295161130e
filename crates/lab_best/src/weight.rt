//! What a seat's weights come to on a path.

ghost use Rattle.std.specs.Prelude.{◌≡◌, ◌⊎◌, ◌+◌, ◌-◌, ◌*◌, ◌^◌, ◌<◌, ◌≤◌, ℕ, length, slice_index, IfSome, IfNone};
ghost use Rattle.lab_form.specs.Forms.{AreSets, IsStepBelow, sets_of};
ghost use Rattle.lab_best.specs.Rows.{
  path_weight,
  path_factors,
  step_weight,
  weight_above,
  count_above,
  HasWeight,
  IsPlayed,
  ArePaths,
};

use lab_form::{Form, FormSet, SetId};

/// The sets of a seat, and for each the last decision above it: the number of its weight plus one, and that of its set plus one.
#[derive(Clone, Copy)]
pub struct Paths<'a> {
    pub sets: &'a [FormSet],
    pub above: &'a [u32],
    pub over: &'a [u32],
}

/// The paths of a seat, 1 or 2, of a form.
#[tactic(auto, using(crate::proofs::PathLemmas::paths_known))]
pub fn paths_of(form: &Form, seat: u32) -> Paths<'_>
    requires { (seat ≡ 1) ⊎ (seat ≡ 2) }
    ensures sets { result.sets.now ≡ sets_of form.now seat }
    ensures order { AreSets result.sets.now }
    ensures paths { ArePaths result.sets.now result.above.now result.over.now }
{
    Paths {
        sets: form.sets(seat),
        above: form.decisions_above(seat),
        over: form.sets_above(seat),
    }
}

/// The weights of a seat on the path to a step, and its grid of `d` for each of `pad` decisions more.
#[cold]
#[inline(never)]
pub fn path_weight(
    paths: &Paths<'_>,
    d: u32,
    weights: &[u32],
    step: Option<(SetId, u32)>,
    pad: u32,
) -> u128
    requires paths { ArePaths paths.now.sets.now paths.now.above.now paths.now.over.now }
    requires played { IsPlayed d paths.now.sets.now weights.now }
    requires step { IsStepBelow paths.now.sets.now step }
    requires small { d ^ path_factors paths.now.sets.now step pad ≤ 2 ^ 77 }
    ensures value { result ≡ path_weight d paths.now.sets.now weights.now step pad }
    ensures within { result ≤ d ^ path_factors paths.now.sets.now step pad }
{
    let weight = (d as u128).pow(pad);
    let Some(taken) = step else {
        return weight;
    };
    let own = step_weight(paths.sets, weights, taken);
    times_above(paths, d, weights, taken.0, weight * own as u128)
}

/// The weight of a step, 1 at a pass.
fn step_weight(sets: &[FormSet], weights: &[u32], taken: (SetId, u32)) -> u32
    requires there { taken.0.0 < length sets.now }
    requires weight { HasWeight sets.now weights.now taken }
    ensures { result ≡ step_weight sets.now weights.now taken }
{
    let (id, action) = taken;
    let set = &sets[id.0 as usize];
    if set.actions < 2 {
        return 1;
    }
    weights[set.first_weight as usize + action as usize]
}

/// A weight, times those of the decisions above a set.
fn times_above(paths: &Paths<'_>, d: u32, weights: &[u32], set: SetId, weight: u128) -> u128
    requires paths { ArePaths paths.now.sets.now paths.now.above.now paths.now.over.now }
    requires played { IsPlayed d paths.now.sets.now weights.now }
    requires there { set.0 < length paths.now.sets.now }
    requires small { weight * d ^ count_above paths.now.sets.now set.0 ≤ 2 ^ 77 }
    ensures value { result ≡ weight * weight_above paths.now.sets.now weights.now set.0 }
    ensures within { result ≤ weight * d ^ count_above paths.now.sets.now set.0 }
{
    let mut weight = weight;
    let mut set = set.0 as usize;
    while let Some((own, next)) = last_above(paths, weights, set) {
        weight *= own as u128;
        set = next;
    }
    weight
}

/// The weight of the last decision above a set, and the number of its set; none where there is none above.
fn last_above(paths: &Paths<'_>, weights: &[u32], set: usize) -> Option<(u32, usize)>
    requires over { set < length paths.now.over.now }
    requires above { set < length paths.now.above.now }
    requires weight { 0 < slice_index paths.now.over.now set → (0 < slice_index paths.now.above.now set) × (slice_index paths.now.above.now set ≤ length weights.now) }
    ensures none { IfNone result (slice_index paths.now.over.now set ≡ 0) }
    ensures set { IfSome result (λ r. slice_index paths.now.over.now set ≡ r.1 + 1) }
    ensures weight { IfSome result (λ r. r.0 ≡ slice_index weights.now (slice_index paths.now.above.now set - 1)) }
{
    let next = (paths.over[set] as usize).checked_sub(1)?;
    Some((weights[paths.above[set] as usize - 1], next))
}
