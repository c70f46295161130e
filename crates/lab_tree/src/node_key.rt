//! The public list of a node as a key.

ghost use Rattle.std.specs.Prelude.{◌≡◌};
ghost use Rattle.lab_defs_game.specs.Nodes.{begins};

use std::cmp::Ordering;
use std::marker::Model;

/// A public list.
#[derive(Drop)]
pub struct NodeKey {
    tokens: Vec<u32>,
}

impl Model for NodeKey {
    ghost use Rattle.std.specs.Prelude.{List, ℕ};

    ghost Value = { List ℕ };

    ghost view = { λ k. k.tokens.items };
}

impl NodeKey {
    pub fn new(tokens: Vec<u32>) -> Self
        ensures { result ≡ tokens.items }
    {
        NodeKey { tokens }
    }

    pub fn as_slice(&self) -> &[u32]
        ensures { result.now ≡ self.now }
    {
        self.tokens.as_slice()
    }

    /// Whether this list begins another.
    pub fn begins(&self, other: &NodeKey) -> bool
        ensures { result ≡ begins self.now other.now }
    {
        begins_list(self.tokens.as_slice(), other.tokens.as_slice())
    }
}

/// Whether one list begins another.
fn begins_list(front: &[u32], whole: &[u32]) -> bool
    ensures { result ≡ begins front.now whole.now }
{
    if front.len() > whole.len() {
        return false;
    }
    for i in 0..front.len() {
        if front[i] != whole[i] {
            return false;
        }
    }
    true
}

impl PartialEq for NodeKey {
    ghost use Rattle.std.specs.Prelude.{nat_eq};
    ghost use Rattle.std.specs.Cmp.{partial_equiv_from_equiv};
    ghost use Rattle.std.specs.Cmp.Lexicographic.{pointwise, nat_list_eq_equiv};

    ghost eq = { pointwise nat_eq };

    ghost laws = { partial_equiv_from_equiv nat_list_eq_equiv };

    fn eq(&self, other: &NodeKey) -> bool {
        self.tokens.as_slice() == other.tokens.as_slice()
    }
}

impl Eq for NodeKey {
    ghost use Rattle.std.specs.Cmp.Lexicographic.{nat_list_eq_equiv};

    ghost laws = { nat_list_eq_equiv };
}

impl Ord for NodeKey {
    ghost use Rattle.std.proofs.Common.{rules};
    ghost use Rattle.std.specs.Prelude.{refl};
    ghost use Rattle.std.specs.Ordering.{nat_cmp};
    ghost use Rattle.std.specs.Cmp.Rules.{comparing};
    ghost use Rattle.std.specs.Cmp.Lexicographic.{slice_cmp, nat_list_cmp_total};
    ghost use Rattle.lab_defs_game.specs.Keys.{list_cmp};

    ghost cmp = { list_cmp };

    ghost total = { nat_list_cmp_total };

    ghost matches_partial_cmp = { Prim.search (comparing, rules) };

    ghost matches_eq = { Prim.search (comparing, rules) };

    fn cmp(&self, other: &NodeKey) -> Ordering {
        self.tokens.as_slice().cmp(&other.tokens.as_slice())
    }
}

impl PartialOrd for NodeKey {
    ghost use Rattle.std.proofs.Common.{rules};
    ghost use Rattle.std.specs.Ordering.{nat_cmp, as_partial_cmp};
    ghost use Rattle.std.specs.Cmp.{partial_order_from_own_ties};
    ghost use Rattle.std.specs.Cmp.Rules.{comparing};
    ghost use Rattle.lab_defs_game.specs.Keys.{list_cmp};

    ghost partial_cmp = { as_partial_cmp list_cmp };

    ghost laws = { partial_order_from_own_ties (Prim.search (comparing, rules)) (Prim.search (comparing, rules)) };

    fn partial_cmp(&self, other: &NodeKey) -> Option<Ordering> {
        Some(self.cmp(other))
    }
}
