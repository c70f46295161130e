//! Blueprints and proposals that regret matching finds.
ghost use Rattle.std.specs.Prelude.{◌≡◌, ◌++◌, ◌∷◌, []};
ghost use lib.Chars.{codes};
ghost use Rattle.lab_defs_report.specs.Modes.{report_of};
ghost use Rattle.lab_examples.specs.Inputs.{text, session, pennies};
ghost use Rattle.lab_examples.specs.KuhnText.{kuhn};

/// After one round both seats of matching pennies split evenly.
pub fn one_round()
    ensures { report_of session (pennies (codes "2") ++ text (codes "blueprint solve 1" ∷ [])) ≡ text (codes "blueprint 0/1 0/1" ∷ []) }
{}

/// After two rounds the averages 5 to 1 and 2 to 4 are rounded to thirds.
pub fn two_rounds()
    ensures { report_of session (pennies (codes "3") ++ text (codes "blueprint solve 2" ∷ codes "show 1" ∷ codes "show 2" ∷ []))
        ≡ text (codes "blueprint 1/1 1/3" ∷ codes "show 1 3 0" ∷ codes "show 2 1 2" ∷ []) }
{}

/// A third round mends them.
pub fn three_rounds()
    ensures { report_of session (pennies (codes "3") ++ text (codes "blueprint solve 3" ∷ [])) ≡ text (codes "blueprint 1/3 1/3" ∷ []) }
{}

/// No round is too few, and more than 4096 are too many.
pub fn rounds_out_of_range()
    ensures none { report_of session (pennies (codes "2") ++ text (codes "blueprint solve 0" ∷ [])) ≡ text (codes "refused 21 BadRounds" ∷ []) }
    ensures too_many { report_of session (pennies (codes "2") ++ text (codes "blueprint solve 4097" ∷ [])) ≡ text (codes "refused 21 BadRounds" ∷ []) }
    ensures of_a_proposal { report_of session (pennies (codes "2") ++ text (codes "blueprint uniform" ∷ codes "resolve 1 0 cfrd 0" ∷ []))
        ≡ text (codes "blueprint 0/1 0/1" ∷ codes "refused 22 BadRounds" ∷ []) }
{}

/// The root is a subgame: a re-solve of one round finds the even split, and is taken.
pub fn resolved_at_the_root()
    ensures { report_of session (pennies (codes "3") ++ text (codes "blueprint given 3 0 2 1" ∷ codes "resolve 1 0 cfrd 1" ∷ []))
        ≡ text (codes "blueprint 1/1 1/3" ∷ codes "accepted 1 0 cfrd 2/3 1/3" ∷ []) }
{}

/// Two rounds find no better than what stands.
pub fn resolved_in_two_rounds()
    ensures { report_of session (pennies (codes "3") ++ text (codes "blueprint given 3 0 2 1" ∷ codes "resolve 1 0 cfrd 2" ∷ []))
        ≡ text (codes "blueprint 1/1 1/3" ∷ codes "accepted 1 0 cfrd 0/1 1/1" ∷ []) }
{}

/// By the rule of margins the gadget of one root set is a pass.
pub fn resolved_by_margin()
    ensures { report_of session (pennies (codes "3") ++ text (codes "blueprint given 3 0 2 1" ∷ codes "resolve 1 0 margin 3" ∷ []))
        ≡ text (codes "blueprint 1/1 1/3" ∷ codes "accepted 1 0 margin 2/3 1/3" ∷ []) }
{}

/// By the rule of reach three rounds find no better.
pub fn resolved_by_reach()
    ensures { report_of session (pennies (codes "3") ++ text (codes "blueprint given 3 0 2 1" ∷ codes "resolve 1 0 reach 3" ∷ []))
        ≡ text (codes "blueprint 1/1 1/3" ∷ codes "accepted 1 0 reach 0/1 1/1" ∷ []) }
{}

/// A re-solve needs a round, too.
pub fn no_round_behind_a_bet()
    ensures { report_of session (kuhn (codes "2") ++ text (codes "blueprint uniform" ∷ codes "resolve 1 4 cfrd 0" ∷ []))
        ≡ text (codes "blueprint 5/12 1/2" ∷ codes "refused 198 BadRounds" ∷ []) }
{}

/// One round behind a bet in Kuhn poker gives the even split that stands.
pub fn resolved_behind_a_bet()
    ensures { report_of session (kuhn (codes "2") ++ text (codes "blueprint uniform" ∷ codes "resolve 1 4 cfrd 1" ∷ []))
        ≡ text (codes "blueprint 5/12 1/2" ∷ codes "accepted 1 4 cfrd 0/1 5/12" ∷ []) }
{}

/// Two rounds by the rule of margins lower the bound.
pub fn resolved_behind_a_bet_by_margin()
    ensures { report_of session (kuhn (codes "2") ++ text (codes "blueprint uniform" ∷ codes "resolve 1 4 margin 2" ∷ []))
        ≡ text (codes "blueprint 5/12 1/2" ∷ codes "accepted 1 4 margin 0/1 1/3" ∷ []) }
{}

/// A blueprint of two rounds for the whole of Kuhn poker.
pub fn solved_kuhn()
    ensures { report_of session (kuhn (codes "2") ++ text (codes "blueprint solve 2" ∷ codes "show 1" ∷ []))
        ≡ text (codes "blueprint 5/12 5/12" ∷ codes "show 1 1 1 1 1 1 1 1 1 1 1 1 1" ∷ []) }
{}
