//! The rule.

ghost use Rattle.std.specs.Prelude.{◌≡◌, ◌+◌, ◌<◌, ◌≤◌, ◌^◌, length, pos};
ghost use Rattle.lab_defs_value.specs.Allowances.{reach};
ghost use Rattle.lab_defs_value.specs.Views.{view_allowance};
ghost use Rattle.lab_rule.specs.Views.{view_model};

use super::pool::{even_part, pool};
use lab_form::Form;
use lab_rule::{Rule, RuleName, View, write_gadget};
use lab_units::Worth;

/// After Brown and Sandholm, *Safe and nested subgame solving for imperfect-information games*, 2017: the sets that follow a step share what the
/// set above has left over, so that a set may pass its bound by its part. The parts are even whole ones.
#[derive(Clone, Copy, Debug, PartialEq, Eq)]
pub struct Reach;

impl Rule for Reach {
    ghost use Rattle.std.proofs.Math.Nat.{le_of_eq};
    ghost use Rattle.std.proofs.lemmas.List.FromFn.{length-map-range_with_len};
    ghost use Rattle.lab_defs_value.specs.Views.{root_allowances, view_gadget, above};
    ghost use Rattle.lab_rule.specs.declared.name.RuleName.TheVariants as name;
    ghost use Rattle.lab_rule_laws.proofs.ViewShares.{view_allowance_law};
    ghost use Rattle.lab_rule_laws.proofs.ViewPaths.{view_law};
    ghost use Rattle.lab_rule_laws.proofs.ViewGadgets.{view_gadget_law};

    ghost named = { λ _. name.Reach };

    ghost allowed = { λ _ v. root_allowances reach v };

    ghost gadget_on = { λ _ v allowances. view_gadget reach v allowances };

    ghost counted = { λ _ v. length-map-range_with_len (λ i. view_allowance reach v (above v + i)) 0 v.roots };

    ghost bounded = { λ _ v ok. view_allowance_law reach v ok };

    ghost keeps = { λ _ v ok. view_law reach v ok };

    ghost fits = { λ _ v ok allowances. let law = view_gadget_law reach v ok allowances in record { keepers = law.0; opponents = law.1; rows = le_of_eq law.2; weights = law.3 } };

    fn name(&self) -> RuleName {
        RuleName::Reach
    }

    fn allowances(&self, view: &View<'_>, out: &mut [Worth]) {
        let above = view.sets.len() - view.roots as usize;
        for root in 0..out.len() {
            out[root] = worth_of(allowance(view, above + root));
        }
    }

    fn gadget(&self, view: &View<'_>, allowances: &[Worth], form: &mut Form) {
        write_gadget(RuleName::Reach, view, allowances, form);
    }
}

// The allowance of the set at a place of the path: nothing at the first set, and at any other its part of the pool of the step that it follows.
fn allowance(view: &View<'_>, place: usize) -> u128
    requires { place < length view.now.sets.now }
    ensures value { result ≡ view_allowance reach (view_model view.now) place }
    ensures small { result ≤ 2 ^ 123 }
{
    let Some((number, at)) = view.sets[place].follows else {
        return 0;
    };
    let step = &view.steps[number as usize];
    let from = step.from as usize;
    let whole = pool(allowance(view, from), view.sets[from].bound, step.through);
    even_part(whole, step.count, at)
}

// An allowance as a worth.
fn worth_of(allowance: u128) -> Worth
    requires { allowance ≤ 2 ^ 123 }
    ensures { result ≡ record { 0 = pos allowance } }
{
    Worth(allowance as i128)
}
