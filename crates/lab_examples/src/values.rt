//! What strategies and replies earn in three-card Kuhn poker on a grid of 2.
ghost use Rattle.std.specs.Prelude.{◌≡◌, ◌+◌, ◌==◌, ◌&&◌, ◌∷◌, [], Some, pos, map, true, false, slice_set};
ghost use Rattle.std.specs.List.{range_with_len, list_all};
ghost use lib.Chars.{codes};
ghost use Rattle.lab_defs_text.specs.Fractions.{fraction_text};
ghost use Rattle.lab_defs_value.specs.Expectation.{expectation_of_uniform, expectation_units};
ghost use Rattle.lab_defs_value.specs.BestValues.{best_response_value};
ghost use Rattle.lab_defs_value.specs.Bounds.{at, holds, bound_units};
ghost use Rattle.lab_defs_value.specs.Allowances.{reach, allowance};
ghost use Rattle.lab_defs_game.specs.Nodes.{path_sets, root_sets, subgame_sets};
ghost use Rattle.lab_defs_value.specs.Passes.{least_margin, first_above, excess};
ghost use Rattle.lab_defs_game.specs.Forms.{form_of, deciding, game_actions};
ghost use Rattle.lab_defs_game.specs.Sets.{most_decisions};
ghost use Rattle.lab_defs_value.specs.Parents.{is_form, begins_at};
ghost use Rattle.lab_defs_value.specs.Replies.{factors_in};
ghost use Rattle.lab_defs_value.specs.Splices.{encloses};
ghost use Rattle.lab_examples.specs.KuhnGame.{kuhn, even1, even2, best_against_even1, best_against_even2, checked, checked_bet, even_but};

/// The even splits earn the first side 1/8.
pub fn expectation_of_even_splits()
    ensures { fraction_text (expectation_of_uniform kuhn) (expectation_units kuhn) ≡ codes "1/8" }
{}

/// The best value at each set of the second side, against the first side's even split.
pub fn best_values_of_the_second_side()
    ensures { map (best_response_value even1) (range_with_len 0 13) ≡ best_against_even1 }
{}

/// The bound on the first side's even split is 5/12.
pub fn bound_of_the_first_side()
    ensures { fraction_text (best_response_value even1 0) (bound_units kuhn 1) ≡ codes "5/12" }
{}

/// The bound on the second side's even split is 1/2.
pub fn bound_of_the_second_side()
    ensures { fraction_text (best_response_value even2 0) (bound_units kuhn 2) ≡ codes "1/2" }
{}

/// The table of the best values holds.
pub fn best_values_hold()
    ensures { holds even1 (at best_against_even1) ≡ true }
{}

/// With a lower number at one set it does not.
pub fn a_lower_bound_does_not_hold()
    ensures { holds even1 (at (slice_set best_against_even1 9 (pos 5))) ≡ false }
{}

/// By reach three sets share 4 units as 2, 1 and 1, where the bound before the deal is 4 too high.
pub fn uneven_shares()
    ensures { map (allowance reach even1 (at (slice_set best_against_even1 0 (pos 14))) (range_with_len 0 4)) (range_with_len 0 4) ≡ 0 ∷ 2 ∷ 1 ∷ 1 ∷ [] }
{}

/// The sets of the first side on the public path to a check and a bet, and their allowances against the second side's even split.
pub fn allowances_along_a_path()
    ensures sets { path_sets kuhn 1 checked_bet ≡ range_with_len 0 10 }
    ensures allowances { map (allowance reach even2 (at best_against_even2) (range_with_len 0 10)) (range_with_len 0 10) ≡ 0 ∷ 0 ∷ 0 ∷ 0 ∷ 2 ∷ 2 ∷ 0 ∷ 2 ∷ 2 ∷ 0 ∷ [] }
{}

/// To fold the lowest card and to call with the highest leaves the opponent at least one unit below its bound at each of its sets.
pub fn a_better_answer_to_a_bet()
    ensures { least_margin (even_but 1 checked_bet (2 ∷ 0 ∷ 1 ∷ 1 ∷ 0 ∷ 2 ∷ [])) (at best_against_even1) (λ I. 0) (root_sets kuhn 2 checked_bet) ≡ pos 1 }
{}

/// To fold each card does not pass at the opponent's lowest card.
pub fn to_fold_each_card()
    ensures first { first_above (even_but 1 checked_bet (2 ∷ 0 ∷ 2 ∷ 0 ∷ 2 ∷ 0 ∷ [])) (at best_against_even1) (λ I. 0) (root_sets kuhn 2 checked_bet) ≡ Some 7 }
    ensures excess { excess (even_but 1 checked_bet (2 ∷ 0 ∷ 2 ∷ 0 ∷ 2 ∷ 0 ∷ [])) (at best_against_even1) (λ I. 0) 7 ≡ pos 6 }
{}

/// A proposal that fails without allowances and passes with those of reach.
pub fn allowances_decide()
    ensures cfrd { first_above (even_but 2 checked (1 ∷ 1 ∷ 2 ∷ 0 ∷ 2 ∷ 0 ∷ [])) (at best_against_even2) (λ I. 0) (root_sets kuhn 1 checked) ≡ Some 5 }
    ensures reach { least_margin (even_but 2 checked (1 ∷ 1 ∷ 2 ∷ 0 ∷ 2 ∷ 0 ∷ [])) (at best_against_even2) (allowance reach even2 (at best_against_even2) (path_sets kuhn 1 checked)) (root_sets kuhn 1 checked) ≡ pos 1 }
{}

/// The form of the game is one as each side sees it.
pub fn the_form_is_one()
    ensures first { is_form (form_of kuhn) 1 ≡ true }
    ensures second { is_form (form_of kuhn) 2 ≡ true }
{}

/// Each side brings as many factors to a row as it has decisions at most.
pub fn factors()
    ensures first { factors_in (form_of kuhn) 1 ≡ most_decisions kuhn 1 }
    ensures second { factors_in (form_of kuhn) 2 ≡ most_decisions kuhn 2 }
{}

/// The second side comes to the first side's sets after a check and a bet only along the path there.
pub fn a_node_encloses_its_subgame()
    ensures sets { subgame_sets kuhn 1 checked_bet ≡ range_with_len 7 3 }
    ensures enclosed { encloses even1 (path_sets kuhn 2 checked_bet) (root_sets kuhn 2 checked_bet) 7 10 ≡ true }
{}

/// Each row begins at set 0 of the second side, and its decisions and pad are as many on each.
pub fn rows_are_padded()
    ensures { list_all (λ z. begins_at z.path2 0 && (deciding (game_actions kuhn 2) z.path2 + z.pad2 == factors_in (form_of kuhn) 2)) (form_of kuhn).rows ≡ true }
{}
