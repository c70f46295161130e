//! Weights of paths that are kept for the rows that come next.

ghost use Rattle.std.specs.Prelude.{◌≡◌, ◌^◌, ◌<◌, ◌≤◌, true, length};
ghost use Rattle.lab_form.specs.Forms.{IsStepBelow};
ghost use Rattle.lab_form.specs.Decisions.{short_decision};
ghost use Rattle.lab_best.specs.Rows.{path_weight, path_factors, ArePaths, IsPlayed};
ghost use Rattle.lab_best.specs.Kept.{nothing_kept, AreKept};

use super::weight::{Paths, path_weight};
use lab_form::SetId;

/// The weight of the paths with a last decision, with the grid for so many decisions more.
#[derive(Clone, Copy)]
pub struct Kept {
    pub decision: u32,
    pub pad: u32,
    pub weight: u128,
}

/// The weight of a path with no decision, which is known of every seat.
pub fn nothing_kept() -> Kept
    ensures { result ≡ nothing_kept }
{
    Kept {
        decision: 0,
        pad: 0,
        weight: 1,
    }
}

/// The weights of a seat on the path to a step, and its grid of `d` for each of `pad` decisions more: the weight that is kept at the
/// place of the path's last decision where it is this one, and else it is found, and kept there.
#[inline(always)]
pub fn kept_weight(
    paths: &Paths<'_>,
    d: u32,
    weights: &[u32],
    step: Option<(SetId, u32)>,
    decision: u32,
    pad: u32,
    kept: &mut [Kept],
) -> u128
    requires paths { ArePaths paths.now.sets.now paths.now.above.now paths.now.over.now }
    requires played { IsPlayed d paths.now.sets.now weights.now }
    requires step { IsStepBelow paths.now.sets.now step }
    requires decision { decision ≡ short_decision paths.now.sets.now step }
    requires small { d ^ path_factors paths.now.sets.now step pad ≤ 2 ^ 77 }
    requires kept { AreKept d paths.now.sets.now weights.now kept.old }
    ensures value { result ≡ path_weight d paths.now.sets.now weights.now step pad }
    ensures within { result ≤ d ^ path_factors paths.now.sets.now step pad }
    ensures kept { AreKept d paths.now.sets.now weights.now kept.new }
{
    let place = place(decision, kept.len());
    let found = kept[place];
    if is_of(found, decision, pad) && are_short(weights) {
        return found.weight;
    }
    let weight = path_weight(paths, d, weights, step, pad);
    kept[place] = Kept {
        decision,
        pad,
        weight,
    };
    weight
}

/// The one of so many places at which the weight of the paths with a last decision is kept.
fn place(decision: u32, places: usize) -> usize
    requires { 0 < places }
    ensures { result < places }
{
    decision as usize & (places - 1)
}

/// Whether a weight is that of the paths with this last decision and so many decisions more.
fn is_of(kept: Kept, decision: u32, pad: u32) -> bool
    ensures decision { result ≡ true → kept.decision ≡ decision }
    ensures pad { result ≡ true → kept.pad ≡ pad }
{
    kept.decision == decision && kept.pad == pad
}

/// Whether 32 bits hold the number of each weight plus one.
fn are_short(weights: &[u32]) -> bool
    ensures { result ≡ true → length weights.now < 2 ^ 32 }
{
    weights.len() <= u32::MAX as usize
}
