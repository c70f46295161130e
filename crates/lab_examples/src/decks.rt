//! The cards and payoffs of the generated card games.
ghost use Rattle.std.specs.Prelude.{◌≡◌, ◌∷◌, [], pos, negsuc, map, take};
ghost use lib.Chars.{codes};
ghost use Rattle.lab_defs_text.specs.Games.{Outcome};
ghost use Rattle.lab_defs_text.specs.Texts.{place_at};
ghost use Rattle.lab_defs_game.specs.Histories.{row_of, payoff};
ghost use Rattle.lab_defs_game.specs.Chance.{row_total};
ghost use Rattle.lab_defs_report.specs.Plans.{to_end, to_world, leads, open_move};
ghost use Rattle.lab_defs_report.specs.Kinds.{kuhn_deals, kuhn_showdown, leduc, leduc_deals, leduc_showdown, first_round, second_round, bet_moves, generated};
ghost use Rattle.lab_examples.specs.Cards.{ranks, dealt, one_takes, two_takes};

/// In Kuhn poker each seat has a card, and no card is there twice.
pub fn deals_of_kuhn()
    ensures { kuhn_deals 4 ≡ (1, 2) ∷ (1, 3) ∷ (1, 4) ∷ (2, 1) ∷ (2, 3) ∷ (2, 4) ∷ (3, 1) ∷ (3, 2) ∷ (3, 4) ∷ (4, 1) ∷ (4, 2) ∷ (4, 3) ∷ [] }
{}

/// The higher card wins: 1 where both checked, 2 where a bet was called.
pub fn showdowns_of_kuhn()
    ensures checked { kuhn_showdown 4 2 1 ≡ to_end (pos 1) }
    ensures called { kuhn_showdown 4 2 2 ≡ to_end (pos 2) }
    ensures lost { kuhn_showdown 2 4 2 ≡ to_end (negsuc 1) }
{}

/// In Leduc poker there are two cards of each rank, so that all three cards are not of one.
pub fn deals_of_leduc()
    ensures { leduc_deals 2 ≡ ranks 1 1 2 ∷ ranks 1 2 1 ∷ ranks 1 2 2 ∷ ranks 2 1 1 ∷ ranks 2 1 2 ∷ ranks 2 2 1 ∷ [] }
{}

/// With six cards three ranks are dealt in 2 * 2 * 2 ways, two cards of one rank and one of another in 2 * 1 * 2: such are the deals that give
/// seat 1 the lowest rank. All deals together have 6 * 5 * 4 ways.
pub fn ways_to_deal_leduc()
    ensures each { map (λ (o : Outcome). o.weight) (take 8 (row_of (place_at (generated leduc 6) 0) 0 0)) ≡ 4 ∷ 4 ∷ 4 ∷ 4 ∷ 8 ∷ 4 ∷ 8 ∷ 4 ∷ [] }
    ensures together { row_total (row_of (place_at (generated leduc 6) 0) 0 0) ≡ 120 }
{}

/// The seat whose card has the third card's rank wins, even with the lower card; else the higher card does, and equal cards earn nothing.
pub fn showdowns_of_leduc()
    ensures pair_of_seat_1 { leduc_showdown (ranks 1 3 1) 5 ≡ to_end (pos 5) }
    ensures pair_of_seat_2 { leduc_showdown (ranks 3 1 1) 5 ≡ to_end (negsuc 4) }
    ensures higher_of_seat_1 { leduc_showdown (ranks 3 2 1) 5 ≡ to_end (pos 5) }
    ensures higher_of_seat_2 { leduc_showdown (ranks 2 3 1) 5 ≡ to_end (negsuc 4) }
    ensures equal { leduc_showdown (ranks 2 2 1) 5 ≡ to_end (pos 0) }
{}

/// A raise of the first round is of 2: who folds to the first loses the ante of 1, who folds to the second 3. A call shows the third card.
pub fn first_round_of_leduc()
    ensures after_a_raise { bet_moves (first_round (ranks 1 2 1)) (codes "r")
        ≡ open_move (codes "fold") (to_end (pos 1)) ∷ record { action = codes "call"; lead = leads (to_world (codes "l-121-rc-0")) (codes "call-1") } ∷ open_move (codes "raise") (to_world (codes "l-121-rr")) ∷ [] }
    ensures after_two { bet_moves (first_round (ranks 1 2 1)) (codes "rr")
        ≡ open_move (codes "fold") (to_end (negsuc 2)) ∷ record { action = codes "call"; lead = leads (to_world (codes "l-121-rrc-0")) (codes "call-1") } ∷ [] }
{}

/// A raise of the second round is of 4. After a raise and a call in the first, a fold to a raise loses 3 and to the second 7, and the showdown is for 7 or 11.
pub fn second_round_of_leduc()
    ensures after_a_raise { bet_moves (second_round (ranks 1 2 1) (codes "rc")) (codes "r")
        ≡ open_move (codes "fold") (to_end (pos 3)) ∷ open_move (codes "call") (to_end (pos 7)) ∷ open_move (codes "raise") (to_world (codes "l-121-rc-rr")) ∷ [] }
    ensures after_two { bet_moves (second_round (ranks 1 2 1) (codes "rc")) (codes "rr")
        ≡ open_move (codes "fold") (to_end (negsuc 6)) ∷ open_move (codes "call") (to_end (pos 11)) ∷ [] }
{}

/// So it is in the game of four cards. By the second deal seat 1 has the rank of the third card: it raises and is called, and raises again,
/// where seat 2 calls, folds, or raises too, to which seat 1 folds. By the fourth deal seat 2 has it, and both check to the end.
pub fn a_hand_of_leduc()
    ensures called { payoff (generated leduc 4) (dealt 1 ∷ one_takes 1 ∷ two_takes 1 ∷ one_takes 1 ∷ two_takes 1 ∷ []) ≡ pos 7 }
    ensures folded { payoff (generated leduc 4) (dealt 1 ∷ one_takes 1 ∷ two_takes 1 ∷ one_takes 1 ∷ two_takes 0 ∷ []) ≡ pos 3 }
    ensures folded_to_two { payoff (generated leduc 4) (dealt 1 ∷ one_takes 1 ∷ two_takes 1 ∷ one_takes 1 ∷ two_takes 2 ∷ one_takes 0 ∷ []) ≡ negsuc 6 }
    ensures checked { payoff (generated leduc 4) (dealt 3 ∷ one_takes 0 ∷ two_takes 0 ∷ one_takes 0 ∷ two_takes 0 ∷ []) ≡ negsuc 0 }
{}
