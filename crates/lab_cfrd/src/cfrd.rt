//! The rule.

use lab_form::Form;
use lab_rule::{Rule, RuleName, View, allow_nothing, write_gadget};
use lab_units::Worth;

/// After Burch, Johanson and Bowling, *Solving imperfect information games using decomposition*, 2014: no set may pass its bound, and at
/// each root set the opponent chooses whether to follow or to take the bound.
#[derive(Clone, Copy, Debug, PartialEq, Eq)]
pub struct Cfrd;

impl Rule for Cfrd {
    ghost use Rattle.std.proofs.Math.Nat.{le_of_eq};
    ghost use Rattle.std.proofs.lemmas.List.FromFn.{length-map-range_with_len};
    ghost use Rattle.lab_defs_value.specs.Allowances.{cfrd};
    ghost use Rattle.lab_defs_value.specs.Views.{root_allowances, view_gadget};
    ghost use Rattle.lab_rule.specs.declared.name.RuleName.TheVariants as name;
    ghost use Rattle.lab_rule_laws.proofs.ViewShares.{view_allowance_law};
    ghost use Rattle.lab_rule_laws.proofs.ViewPaths.{view_law};
    ghost use Rattle.lab_rule_laws.proofs.ViewGadgets.{view_gadget_law};

    ghost named = { λ _. name.Cfrd };

    ghost allowed = { λ _ v. root_allowances cfrd v };

    ghost gadget_on = { λ _ v allowances. view_gadget cfrd v allowances };

    ghost counted = { λ _ v. length-map-range_with_len (λ _. 0) 0 v.roots };

    ghost bounded = { λ _ v ok. view_allowance_law cfrd v ok };

    ghost keeps = { λ _ v ok. view_law cfrd v ok };

    ghost fits = { λ _ v ok allowances. let law = view_gadget_law cfrd v ok allowances in record { keepers = law.0; opponents = law.1; rows = le_of_eq law.2; weights = law.3 } };

    fn name(&self) -> RuleName {
        RuleName::Cfrd
    }

    fn allowances(&self, _view: &View<'_>, out: &mut [Worth]) {
        allow_nothing(out);
    }

    fn gadget(&self, view: &View<'_>, allowances: &[Worth], form: &mut Form) {
        write_gadget(RuleName::Cfrd, view, allowances, form);
    }
}
