//! What a survey mends: the subgames of the nodes of depth 2.
ghost use Rattle.std.specs.Prelude.{◌≡◌, ◌∷◌, []};
ghost use lib.Chars.{codes};
ghost use Rattle.lab_defs_report.specs.Modes.{report_of};
ghost use Rattle.lab_examples.specs.Inputs.{text};
ghost use Rattle.lab_defs_value.specs.Allowances.{reach};
ghost use Rattle.lab_defs_report.specs.Commands.{resolve};
ghost use Rattle.lab_defs_report.specs.Surveys.{survey_resolves};
ghost use Rattle.lab_examples.specs.Games.{kuhn, fork};

/// In Kuhn poker node 2 comes after a check, where either seat has something to decide, and node 7 after a bet, where seat 2 alone has: each
/// re-solve is one of 64 rounds by the rule of reaches.
pub fn resolves_in_kuhn()
    ensures { survey_resolves kuhn ≡ resolve 1 2 reach 64 ∷ resolve 2 2 reach 64 ∷ resolve 2 7 reach 64 ∷ [] }
{}

/// In the fork nobody decides at depth 2: the one decision of seat 1 is at depth 1.
pub fn nothing_to_resolve_in_the_fork()
    ensures { survey_resolves fork ≡ [] }
{}

/// A survey begins with a blueprint of 64 rounds: with five sides of a penny these find the bounds 2/3 and -1/2, where 63 find 5/6 and -1/2.
pub fn survey_of_five_sides()
    ensures { report_of (codes "survey" ∷ codes "pennies" ∷ codes "5" ∷ []) []
        ≡ text (codes "survey pennies 5 histories 26 nodes 2 sets 1 1" ∷ codes "blueprint 2/3 -1/2" ∷ codes "accepted 0 kept 0" ∷ codes "final 2/3 -1/2" ∷ []) }
{}
