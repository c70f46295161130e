//! What each rule is.

ghost use Rattle.std.specs.Prelude.{◌≡◌, ℕ, ◌^◌, ◌<◌, ◌≤◌, List, length, All};
ghost use Rattle.lab_defs_game.specs.Forms.{Form};
ghost use Rattle.lab_defs_value.specs.Views as views;
ghost use Rattle.lab_form.specs.Forms.{form_model};
ghost use Rattle.lab_rule.specs.declared.name.RuleName.{RuleName};
ghost use Rattle.lab_rule.specs.Views.{view_model};
ghost use Rattle.lab_rule.specs.Rules.{worths_of, sizes_of, AreAllowances, HasRoom, KeepsBounds, IsGadgetOf};

use crate::{RuleName, View};
use lab_form::Form;
use lab_units::Worth;

/// A rule by which the keeper's strategy may be replaced in a subgame. It allows each root set a gift, by which the set's value may pass
/// its bound, and it has a gadget, a game in which the keeper looks for what to play.
pub trait Rule {
    // the name by which commands and reports call the rule
    ghost named: { Self → RuleName };

    // what the rule allows each root set of a view
    ghost allowed: { Self → views.View → List ℕ };

    // the gadget on a view, by an allowance for each root set
    ghost gadget_on: { Self → views.View → List ℕ → Form };

    /// The name of the rule.
    fn name(&self) -> RuleName
        ensures { result ≡ named self.now };

    /// Writes the allowance of each root set.
    fn allowances(&self, view: &View<'_>, out: &mut [Worth])
        requires { length out.old ≡ view.now.roots }
        ensures { out.new ≡ worths_of (allowed self.now (view_model view.now)) };

    /// Writes the gadget over a form, by an allowance for each root set; the form keeps its room.
    fn gadget(&self, view: &View<'_>, allowances: &[Worth], form: &mut Form)
        requires count { length allowances.now ≡ view.now.roots }
        requires sizes { AreAllowances allowances.now }
        requires room { HasRoom view.now.form.now view.now.keeper view.now.roots form.old }
        ensures gadget { form_model form.new ≡ gadget_on self.now (view_model view.now) (sizes_of allowances.now) }
        ensures set_room { form.new.set_room ≡ form.old.set_room }
        ensures row_room { form.new.row_room ≡ form.old.row_room };

    // there is an allowance for each root set
    ghost counted: { (r : Self) (v : views.View) → length (allowed r v) ≡ v.roots };

    // none is above 2^123
    ghost bounded: { (r : Self) (v : views.View) → views.IsView v → All (λ n. n ≤ 2 ^ 123) (allowed r v) };

    // no bound above the subgame rises: root sets within bound and allowance back up no more than the bound of the first set
    ghost keeps: { (r : Self) (v : views.View) → views.IsView v → KeepsBounds v (allowed r v) };

    // the gadget leaves the keeper's sets as they are, and adds no more sets, rows and weights than there is room for
    ghost fits: { (r : Self) (v : views.View) → views.IsView v → (allowances : List ℕ) → IsGadgetOf v (gadget_on r v allowances) };
}
