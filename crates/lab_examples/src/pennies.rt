//! Sessions on matching pennies.
ghost use Rattle.std.specs.Prelude.{◌≡◌, ◌++◌, ◌∷◌, []};
ghost use lib.Chars.{codes};
ghost use Rattle.lab_defs_report.specs.Modes.{report_of};
ghost use Rattle.lab_examples.specs.Inputs.{text, session, pennies};

/// An odd grid gives its last step to the first action.
pub fn even_split_on_an_odd_grid()
    ensures { report_of session (pennies (codes "3") ++ text (codes "blueprint uniform" ∷ codes "show 1" ∷ []))
        ≡ text (codes "blueprint 1/3 1/3" ∷ codes "show 1 2 1" ∷ []) }
{}

/// On an even grid the even split is best for both seats.
pub fn best_weights()
    ensures { report_of session (pennies (codes "2") ++ text (codes "blueprint uniform" ∷ codes "bound 1" ∷ codes "bound 2" ∷ codes "expect" ∷ []))
        ≡ text (codes "blueprint 0/1 0/1" ∷ codes "bound 1 0/1" ∷ codes "bound 2 0/1" ∷ codes "expect 0/1" ∷ []) }
{}

/// A seat that always takes one side may lose all.
pub fn one_side_given()
    ensures { report_of session (pennies (codes "2") ++ text (codes "blueprint given 2 0 1 1" ∷ codes "expect" ∷ codes "bound 1" ∷ codes "bound 2" ∷ []))
        ≡ text (codes "blueprint 1/1 0/1" ∷ codes "expect 0/1" ∷ codes "bound 1 1/1" ∷ codes "bound 2 0/1" ∷ []) }
{}

/// The whole game is a subgame: a proposal there may stand in for the whole blueprint.
pub fn proposal_for_the_whole_game()
    ensures { report_of session (pennies (codes "3") ++ text (codes "blueprint given 3 0 2 1" ∷ codes "propose 1 0 cfrd 2 1" ∷ []))
        ≡ text (codes "blueprint 1/1 1/3" ∷ codes "accepted 1 0 cfrd 2/3 1/3" ∷ []) }
{}

/// Each seat has its own bound.
pub fn proposal_for_both()
    ensures { report_of session (pennies (codes "2") ++ text (codes "blueprint given 2 0 0 2" ∷ codes "propose 2 0 margin 1 1" ∷ codes "propose 1 0 reach 1 1" ∷ codes "bound 1" ∷ codes "bound 2" ∷ codes "expect" ∷ []))
        ≡ text (codes "blueprint 1/1 1/1" ∷ codes "accepted 2 0 margin 1/1 0/1" ∷ codes "accepted 1 0 reach 1/1 0/1" ∷ codes "bound 1 0/1" ∷ codes "bound 2 0/1" ∷ codes "expect 0/1" ∷ []) }
{}

/// On the finest grid.
pub fn a_fine_grid()
    ensures { report_of session (pennies (codes "4096") ++ text (codes "blueprint uniform" ∷ codes "show 1" ∷ codes "propose 1 0 cfrd 2049 2047" ∷ codes "expect" ∷ []))
        ≡ text (codes "blueprint 0/1 0/1" ∷ codes "show 1 2048 2048" ∷ codes "kept 1 0 cfrd 0 1/2048 0/1" ∷ codes "expect 0/1" ∷ []) }
{}
