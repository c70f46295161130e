//! The gadgets of a subgame: the opponent terminates or follows at each of its root sets, or chooses one of them.
ghost use Rattle.std.specs.Prelude.{◌≡◌, ◌++◌, ◌∷◌, [], pos, negsuc, Some, None};
ghost use Rattle.lab_defs_value.specs.Allowances.{cfrd, reach, margin};
ghost use Rattle.lab_examples.specs.Games.{at};
ghost use Rattle.lab_examples.specs.ForkGadgets.{gadget_by, set_after, further, entered_by};

/// Seat 2 may terminate with its bound, which seat 1 loses, or follow to the set that it had.
pub fn terminate_or_follow()
    ensures sets { (gadget_by cfrd).sets2 ≡ set_after None 2 ∷ set_after None 2 ∷ set_after (Some (at 0 1)) 1 ∷ set_after (Some (at 1 1)) 1 ∷ [] }
    ensures rows { (gadget_by cfrd).rows ≡ entered_by (at 0 1 ∷ at 2 0 ∷ []) (at 1 1 ∷ at 3 0 ∷ []) ++ (further (negsuc 1) (at 0 0) ∷ further (negsuc 2) (at 1 0) ∷ []) }
{}

/// By reach its bounds of 2 and 3 have allowances of 3 and 2, for what the bound before the game is above them both.
pub fn terminate_with_an_allowance()
    ensures rows { (gadget_by reach).rows ≡ entered_by (at 0 1 ∷ at 2 0 ∷ []) (at 1 1 ∷ at 3 0 ∷ []) ++ (further (negsuc 4) (at 0 0) ∷ further (negsuc 4) (at 1 0) ∷ []) }
{}

/// By margin seat 2 chooses a root set, and what it earns there counts without its bound, which the further row gives to seat 1.
pub fn choose_a_root_set()
    ensures sets { (gadget_by margin).sets2 ≡ set_after None 2 ∷ set_after (Some (at 0 0)) 1 ∷ set_after (Some (at 0 1)) 1 ∷ [] }
    ensures rows { (gadget_by margin).rows ≡ entered_by (at 0 0 ∷ at 1 0 ∷ []) (at 0 1 ∷ at 2 0 ∷ []) ++ (further (pos 2) (at 0 0) ∷ further (pos 3) (at 0 1) ∷ []) }
{}
