//! Sessions on three-card Kuhn poker.
ghost use Rattle.std.specs.Prelude.{◌≡◌, ◌++◌, ◌∷◌, []};
ghost use lib.Chars.{codes};
ghost use Rattle.lab_defs_report.specs.Modes.{report_of};
ghost use Rattle.lab_examples.specs.Inputs.{text, session};
ghost use Rattle.lab_examples.specs.KuhnText.{kuhn};

/// The even split is worth an eighth to seat 1.
pub fn even_split()
    ensures { report_of session (kuhn (codes "2") ++ text (codes "expect uniform" ∷ [])) ≡ text (codes "expect 1/8" ∷ []) }
{}

/// As a blueprint it is worth the same.
pub fn even_split_as_blueprint()
    ensures { report_of session (kuhn (codes "2") ++ text (codes "blueprint uniform" ∷ codes "expect" ∷ []))
        ≡ text (codes "blueprint 5/12 1/2" ∷ codes "expect 1/8" ∷ []) }
{}

/// The bounds of the even split are those of the blueprint.
pub fn bounds_of_even_split()
    ensures { report_of session (kuhn (codes "2") ++ text (codes "blueprint uniform" ∷ codes "bound 1" ∷ codes "bound 2" ∷ []))
        ≡ text (codes "blueprint 5/12 1/2" ∷ codes "bound 1 5/12" ∷ codes "bound 2 1/2" ∷ []) }
{}

/// Weights whose bounds meet: the game is worth a loss of an eighteenth to seat 1.
pub fn value_of_the_game()
    ensures { report_of session (kuhn (codes "3") ++ text (codes "blueprint given 3 0 3 0 3 0 3 0 2 1 0 3 2 1 3 0 0 3 3 0 2 1 0 3" ∷ codes "expect" ∷ []))
        ≡ text (codes "blueprint 1/18 -1/18" ∷ codes "expect -1/18" ∷ []) }
{}

/// A proposal that passes lowers the bound.
pub fn accepted()
    ensures { report_of session (kuhn (codes "2") ++ text (codes "blueprint uniform" ∷ codes "propose 1 4 cfrd 2 0 1 1 0 2" ∷ codes "bound 1" ∷ []))
        ≡ text (codes "blueprint 5/12 1/2" ∷ codes "accepted 1 4 cfrd 1/24 5/24" ∷ codes "bound 1 5/24" ∷ []) }
{}

/// A proposal that raises two sets is not taken: the first of them is named, with its excess.
pub fn kept_for_two_sets()
    ensures { report_of session (kuhn (codes "2") ++ text (codes "blueprint uniform" ∷ codes "propose 1 4 cfrd 0 2 1 1 1 1" ∷ []))
        ≡ text (codes "blueprint 5/12 1/2" ∷ codes "kept 1 4 cfrd 8 1/24 5/12" ∷ []) }
{}

/// A proposal that raises one set is not taken.
pub fn kept_for_one_set()
    ensures { report_of session (kuhn (codes "2") ++ text (codes "blueprint uniform" ∷ codes "propose 1 4 cfrd 2 0 0 2 2 0" ∷ []))
        ≡ text (codes "blueprint 5/12 1/2" ∷ codes "kept 1 4 cfrd 8 1/12 5/12" ∷ []) }
{}

/// A proposal that stands already passes with no margin.
pub fn accepted_twice()
    ensures { report_of session (kuhn (codes "2") ++ text (codes "blueprint uniform" ∷ codes "propose 1 4 cfrd 2 0 1 1 0 2" ∷ codes "propose 1 4 cfrd 2 0 1 1 0 2" ∷ []))
        ≡ text (codes "blueprint 5/12 1/2" ∷ codes "accepted 1 4 cfrd 1/24 5/24" ∷ codes "accepted 1 4 cfrd 0/1 5/24" ∷ []) }
{}

/// By the rule of margins the least difference of the three sets is told.
pub fn accepted_by_margin()
    ensures { report_of session (kuhn (codes "2") ++ text (codes "blueprint uniform" ∷ codes "propose 1 4 margin 2 0 1 1 0 2" ∷ []))
        ≡ text (codes "blueprint 5/12 1/2" ∷ codes "accepted 1 4 margin 1/24 5/24" ∷ []) }
{}

/// What is gained on the way to a subgame may be given up in it: by the rule of reaches a later proposal passes.
pub fn accepted_by_reach()
    ensures { report_of session (kuhn (codes "12") ++ text (codes "blueprint uniform" ∷ codes "propose 1 4 cfrd 12 0 6 6 0 12" ∷ codes "propose 1 4 reach 12 0 6 6 2 10" ∷ []))
        ≡ text (codes "blueprint 5/12 1/2" ∷ codes "accepted 1 4 cfrd 1/24 5/24" ∷ codes "accepted 1 4 reach 0/1 5/24" ∷ []) }
{}

/// Without that rule the same proposal does not pass.
pub fn kept_without_reach()
    ensures { report_of session (kuhn (codes "12") ++ text (codes "blueprint uniform" ∷ codes "propose 1 4 cfrd 12 0 6 6 0 12" ∷ codes "propose 1 4 cfrd 12 0 6 6 2 10" ∷ []))
        ≡ text (codes "blueprint 5/12 1/2" ∷ codes "accepted 1 4 cfrd 1/24 5/24" ∷ codes "kept 1 4 cfrd 7 1/24 5/24" ∷ []) }
{}

/// Any proposal passes in a subgame that its seat never reaches, and the bound stays.
pub fn subgame_never_reached()
    ensures { report_of session (kuhn (codes "2") ++ text (codes "blueprint given 0 2 0 2 0 2 1 1 1 1 1 1 1 1 1 1 1 1 1 1 1 1 1 1" ∷ codes "propose 1 4 cfrd 2 0 2 0 2 0" ∷ []))
        ≡ text (codes "blueprint 1/3 1/2" ∷ codes "accepted 1 4 cfrd 0/1 1/3" ∷ []) }
{}

/// A proposal that is not taken leaves the weights and the bounds as they were.
pub fn kept_changes_nothing()
    ensures { report_of session (kuhn (codes "2") ++ text (codes "blueprint uniform" ∷ codes "propose 1 4 cfrd 0 2 1 1 1 1" ∷ codes "show 1" ∷ codes "bound 1" ∷ codes "expect" ∷ []))
        ≡ text (codes "blueprint 5/12 1/2" ∷ codes "kept 1 4 cfrd 8 1/24 5/12" ∷ codes "show 1 1 1 1 1 1 1 1 1 1 1 1 1" ∷ codes "bound 1 5/12" ∷ codes "expect 1/8" ∷ []) }
{}

/// A proposal that passes stands in the place of the weights of its subgame.
pub fn accepted_weights()
    ensures { report_of session (kuhn (codes "2") ++ text (codes "blueprint uniform" ∷ codes "propose 1 4 cfrd 2 0 1 1 0 2" ∷ codes "show 1" ∷ codes "show 2" ∷ []))
        ≡ text (codes "blueprint 5/12 1/2" ∷ codes "accepted 1 4 cfrd 1/24 5/24" ∷ codes "show 1 1 1 1 1 1 1 2 0 1 1 0 2" ∷ codes "show 2 1 1 1 1 1 1 1 1 1 1 1 1" ∷ []) }
{}

/// After a proposal that is not taken another may pass.
pub fn kept_then_accepted()
    ensures { report_of session (kuhn (codes "2") ++ text (codes "blueprint uniform" ∷ codes "propose 1 4 cfrd 0 2 1 1 1 1" ∷ codes "propose 1 4 cfrd 2 0 1 1 0 2" ∷ []))
        ≡ text (codes "blueprint 5/12 1/2" ∷ codes "kept 1 4 cfrd 8 1/24 5/12" ∷ codes "accepted 1 4 cfrd 1/24 5/24" ∷ []) }
{}

/// Seat 2 may propose too; the bound of seat 1 stays.
pub fn accepted_for_seat_2()
    ensures { report_of session (kuhn (codes "2") ++ text (codes "blueprint uniform" ∷ codes "propose 2 7 cfrd 2 0 1 1 0 2" ∷ codes "bound 1" ∷ codes "bound 2" ∷ []))
        ≡ text (codes "blueprint 5/12 1/2" ∷ codes "accepted 2 7 cfrd 1/12 1/6" ∷ codes "bound 1 5/12" ∷ codes "bound 2 1/6" ∷ []) }
{}

/// A proposal has as many weights as its seat has in the subgame.
pub fn too_few_weights()
    ensures { report_of session (kuhn (codes "2") ++ text (codes "blueprint uniform" ∷ codes "propose 1 4 cfrd 2 0" ∷ []))
        ≡ text (codes "blueprint 5/12 1/2" ∷ codes "refused 198 WrongCount 6 2" ∷ []) }
{}

/// The weights of a set sum to the grid; the set is named.
pub fn weights_off_the_grid()
    ensures { report_of session (kuhn (codes "2") ++ text (codes "blueprint uniform" ∷ codes "propose 1 4 cfrd 2 0 1 1 0 1" ∷ []))
        ≡ text (codes "blueprint 5/12 1/2" ∷ codes "refused 198 WrongSum 1 9" ∷ []) }
{}

/// The nodes are numbered from 0.
pub fn no_such_node()
    ensures { report_of session (kuhn (codes "2") ++ text (codes "blueprint uniform" ∷ codes "propose 1 10 cfrd 1 1" ∷ []))
        ≡ text (codes "blueprint 5/12 1/2" ∷ codes "refused 198 NoNode 10" ∷ []) }
{}

/// A seat that decides nothing in a subgame can propose nothing there.
pub fn nothing_to_decide()
    ensures { report_of session (kuhn (codes "2") ++ text (codes "blueprint uniform" ∷ codes "propose 1 7 cfrd 1 1" ∷ []))
        ≡ text (codes "blueprint 5/12 1/2" ∷ codes "refused 198 NoDecision" ∷ []) }
{}

/// There are two seats.
pub fn no_such_seat()
    ensures { report_of session (kuhn (codes "2") ++ text (codes "blueprint uniform" ∷ codes "bound 3" ∷ []))
        ≡ text (codes "blueprint 5/12 1/2" ∷ codes "refused 198 BadSeat" ∷ []) }
{}

/// There is one blueprint.
pub fn second_blueprint()
    ensures { report_of session (kuhn (codes "2") ++ text (codes "blueprint uniform" ∷ codes "blueprint uniform" ∷ []))
        ≡ text (codes "blueprint 5/12 1/2" ∷ codes "refused 198 SecondBlueprint" ∷ []) }
{}
