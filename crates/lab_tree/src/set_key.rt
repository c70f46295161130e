//! What a seat has seen as a key.

ghost use Rattle.std.specs.Prelude.{◌≡◌, map};
ghost use Rattle.std.specs.Cmp.Lexicographic.{slice_cmp};
ghost use Rattle.lab_defs_game.specs.Keys.{list_cmp};
ghost use Rattle.lab_defs_game.specs.Sets.{publics, item_cmp, set_cmp};
ghost use Rattle.lab_unfold.specs.Items.{item_model};

use lab_unfold::Item;
use std::cmp::Ordering;
use std::marker::Model;

/// What a seat has seen along a history.
#[derive(Drop)]
pub struct SetKey {
    items: Vec<Item>,
}

impl Model for SetKey {
    ghost use Rattle.std.specs.Prelude.{List, map};
    ghost use Rattle.lab_defs_game.specs.Sets as model;
    ghost use Rattle.lab_unfold.specs.Items.{item_model};

    ghost Value = { List model.Item };

    ghost view = { λ k. map item_model k.items.items };
}

impl SetKey {
    pub fn new(items: Vec<Item>) -> Self
        ensures { result ≡ map item_model items.items }
    {
        SetKey { items }
    }
}

/// By public list, then by what is seen.
fn compare(one: &[Item], two: &[Item]) -> Ordering
    ensures { result ≡ set_cmp (map item_model one.now) (map item_model two.now) }
{
    compare_publics(one, two).then(compare_items(one, two))
}

/// By public list.
fn compare_publics(one: &[Item], two: &[Item]) -> Ordering
    ensures { result ≡ list_cmp (publics (map item_model one.now)) (publics (map item_model two.now)) }
{
    for i in 0..one.len().min(two.len()) {
        match one[i].public.cmp(&two[i].public) {
            Ordering::Equal => {}
            other => return other,
        }
    }
    one.len().cmp(&two.len())
}

/// By what is seen.
fn compare_items(one: &[Item], two: &[Item]) -> Ordering
    ensures { result ≡ slice_cmp item_cmp (map item_model one.now) (map item_model two.now) }
{
    one.cmp(&two)
}

impl PartialEq for SetKey {
    ghost use Rattle.std.specs.Ordering.{eq_by_cmp};
    ghost use Rattle.std.specs.Cmp.{partial_equiv_from_equiv};
    ghost use Rattle.std.proofs.lemmas.Cmp.{eq_by_cmp_equiv};
    ghost use Rattle.lab_defs_game.specs.Sets.{set_cmp};
    ghost use Rattle.lab_tree.specs.SetKeys.{set_total};

    ghost eq = { eq_by_cmp set_cmp };

    ghost laws = { partial_equiv_from_equiv (eq_by_cmp_equiv set_total) };

    fn eq(&self, other: &SetKey) -> bool {
        compare(self.items.as_slice(), other.items.as_slice()).is_eq()
    }
}

impl Eq for SetKey {
    ghost use Rattle.std.proofs.lemmas.Cmp.{eq_by_cmp_equiv};
    ghost use Rattle.lab_tree.specs.SetKeys.{set_total};

    ghost laws = { eq_by_cmp_equiv set_total };
}

impl Ord for SetKey {
    ghost use Rattle.std.proofs.Common.{rules};
    ghost use Rattle.std.specs.Cmp.Rules.{comparing};
    ghost use Rattle.std.specs.Prelude.{refl};
    ghost use Rattle.lab_defs_game.specs.Sets.{set_cmp};
    ghost use Rattle.lab_tree.specs.SetKeys.{set_total};

    ghost cmp = { set_cmp };

    ghost total = { set_total };

    ghost matches_partial_cmp = { Prim.search (comparing, rules) };

    ghost matches_eq = { Prim.search (comparing, rules) };

    fn cmp(&self, other: &SetKey) -> Ordering {
        compare(self.items.as_slice(), other.items.as_slice())
    }
}

impl PartialOrd for SetKey {
    ghost use Rattle.std.proofs.Common.{rules};
    ghost use Rattle.std.specs.Ordering.{as_partial_cmp};
    ghost use Rattle.std.specs.Cmp.{partial_order_from_own_ties};
    ghost use Rattle.std.specs.Cmp.Rules.{comparing};
    ghost use Rattle.lab_defs_game.specs.Sets.{set_cmp};
    ghost use Rattle.lab_tree.specs.SetKeys.{set_total};

    ghost partial_cmp = { as_partial_cmp set_cmp };

    ghost laws = { partial_order_from_own_ties (Prim.search (comparing, rules, set_total)) (Prim.search (comparing, rules)) };

    fn partial_cmp(&self, other: &SetKey) -> Option<Ordering> {
        Some(self.cmp(other))
    }
}
