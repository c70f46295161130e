//! Sessions on a game where seat 2 may stay out, or go in and get a private colour.
ghost use Rattle.std.specs.Prelude.{◌≡◌, ◌++◌, ◌∷◌, []};
ghost use lib.Chars.{codes};
ghost use Rattle.lab_defs_report.specs.Modes.{report_of};
ghost use Rattle.lab_examples.specs.Inputs.{text, session, fork};

/// The pool of 3 units is shared by two sets: 2 for the first, 1 for the second. So the rule of reaches takes what the plain one does not.
pub fn pooled_reach()
    ensures { report_of session (fork ++ text (codes "blueprint uniform" ∷ codes "propose 1 1 cfrd 3 0" ∷ codes "propose 1 1 reach 3 0" ∷ codes "bound 1" ∷ []))
        ≡ text (codes "blueprint 1/1 -1/2" ∷ codes "kept 1 1 cfrd 1 1/3 1/1" ∷ codes "accepted 1 1 reach 0/1 1/1" ∷ codes "bound 1 1/1" ∷ []) }
{}

/// Nor does the rule of margins take it.
pub fn no_margin_without_reach()
    ensures { report_of session (fork ++ text (codes "blueprint uniform" ∷ codes "propose 1 1 margin 3 0" ∷ []))
        ≡ text (codes "blueprint 1/1 -1/2" ∷ codes "kept 1 1 margin 1 1/3 1/1" ∷ []) }
{}

/// Each proposal that passes brings the bounds down to what its weights hold: those that passed before need not pass again.
pub fn spent_reach()
    ensures { report_of session (fork ++ text (codes "blueprint uniform" ∷ codes "propose 1 1 reach 3 0" ∷ codes "propose 1 1 reach 0 3" ∷ codes "propose 1 1 reach 3 0" ∷ codes "show 1" ∷ []))
        ≡ text (codes "blueprint 1/1 -1/2" ∷ codes "accepted 1 1 reach 0/1 1/1" ∷ codes "accepted 1 1 reach 1/2 1/1" ∷ codes "kept 1 1 reach 1 1/6 1/1" ∷ codes "show 1 0 3" ∷ []) }
{}

/// An odd grid gives its last step to the first action.
pub fn uniform()
    ensures { report_of session (fork ++ text (codes "expect uniform" ∷ codes "blueprint uniform" ∷ codes "show 1" ∷ codes "show 2" ∷ codes "expect" ∷ []))
        ≡ text (codes "expect -5/6" ∷ codes "blueprint 1/1 -1/2" ∷ codes "show 1 2 1" ∷ codes "show 2 2 1" ∷ codes "expect -5/6" ∷ []) }
{}

/// The whole game is a subgame.
pub fn root_as_subgame()
    ensures { report_of session (fork ++ text (codes "blueprint uniform" ∷ codes "propose 1 0 cfrd 2 1" ∷ codes "propose 2 0 cfrd 3 0" ∷ codes "bound 2" ∷ []))
        ≡ text (codes "blueprint 1/1 -1/2" ∷ codes "accepted 1 0 cfrd 0/1 1/1" ∷ codes "accepted 2 0 cfrd 1/2 -1/1" ∷ codes "bound 2 -1/1" ∷ []) }
{}

/// The weights of seat 1 come first, in the order of its sets, then those of seat 2.
pub fn given()
    ensures { report_of session (fork ++ text (codes "blueprint given 1 2 0 3" ∷ codes "show 1" ∷ codes "show 2" ∷ codes "bound 1" ∷ codes "bound 2" ∷ []))
        ≡ text (codes "blueprint 1/1 1/2" ∷ codes "show 1 1 2" ∷ codes "show 2 0 3" ∷ codes "bound 1 1/1" ∷ codes "bound 2 1/2" ∷ []) }
{}

/// The sums of seat 1 are looked at before those of seat 2.
pub fn sums_of_seat_1_first()
    ensures { report_of session (fork ++ text (codes "blueprint given 1 1 1 1" ∷ [])) ≡ text (codes "refused 37 WrongSum 1 1" ∷ []) }
{}

/// Its sets have numbers of their own.
pub fn sums_of_seat_2()
    ensures { report_of session (fork ++ text (codes "blueprint given 1 2 1 1" ∷ [])) ≡ text (codes "refused 37 WrongSum 2 0" ∷ []) }
{}

/// The weights are counted before they are summed.
pub fn count_before_sums()
    ensures { report_of session (fork ++ text (codes "blueprint given 1 1 1" ∷ [])) ≡ text (codes "refused 37 WrongCount 4 3" ∷ []) }
{}

/// The seat is looked at before the node.
pub fn seat_before_node()
    ensures { report_of session (fork ++ text (codes "blueprint uniform" ∷ codes "propose 3 4 cfrd 3 0" ∷ []))
        ≡ text (codes "blueprint 1/1 -1/2" ∷ codes "refused 38 BadSeat" ∷ []) }
{}

/// The node is looked at before the weights.
pub fn node_before_weights()
    ensures { report_of session (fork ++ text (codes "blueprint uniform" ∷ codes "propose 1 4 cfrd" ∷ []))
        ≡ text (codes "blueprint 1/1 -1/2" ∷ codes "refused 38 NoNode 4" ∷ []) }
{}

/// The weights of a proposal, too, are counted before they are summed.
pub fn count_before_sum_of_a_proposal()
    ensures { report_of session (fork ++ text (codes "blueprint uniform" ∷ codes "propose 1 1 cfrd 9" ∷ []))
        ≡ text (codes "blueprint 1/1 -1/2" ∷ codes "refused 38 WrongCount 2 1" ∷ []) }
{}

/// The set whose weights do not sum to the grid is named by its number in the game.
pub fn sum_of_a_proposal()
    ensures { report_of session (fork ++ text (codes "blueprint uniform" ∷ codes "propose 1 1 cfrd 1 1" ∷ []))
        ≡ text (codes "blueprint 1/1 -1/2" ∷ codes "refused 38 WrongSum 1 1" ∷ []) }
{}

/// Nothing is answered behind a refusal.
pub fn nothing_behind_a_refusal()
    ensures { report_of session (fork ++ text (codes "blueprint uniform" ∷ codes "bound 3" ∷ codes "bound 1" ∷ []))
        ≡ text (codes "blueprint 1/1 -1/2" ∷ codes "refused 38 BadSeat" ∷ []) }
{}

/// Nobody decides at a node where the game has ended, however many weights are given.
pub fn leaf_node()
    ensures { report_of session (fork ++ text (codes "blueprint uniform" ∷ codes "propose 1 3 cfrd" ∷ []))
        ≡ text (codes "blueprint 1/1 -1/2" ∷ codes "refused 38 NoDecision" ∷ []) }
{}

/// There are four nodes.
pub fn nodes_are_counted()
    ensures { report_of session (fork ++ text (codes "blueprint uniform" ∷ codes "propose 1 4 cfrd 3 0" ∷ []))
        ≡ text (codes "blueprint 1/1 -1/2" ∷ codes "refused 38 NoNode 4" ∷ []) }
{}
