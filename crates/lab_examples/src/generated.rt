//! Generated games.
ghost use Rattle.std.specs.Prelude.{◌≡◌, ◌++◌, ◌∷◌, []};
ghost use lib.Chars.{codes};
ghost use Rattle.lab_defs_report.specs.Modes.{report_of};
ghost use Rattle.lab_examples.specs.Inputs.{text, check, pennies};
ghost use Rattle.lab_examples.specs.GeneratedTexts.{goofspiel, dice};
ghost use Rattle.lab_examples.specs.KuhnText.{kuhn};

/// Matching pennies with two sides.
pub fn two_sides()
    ensures { report_of (codes "generate" ∷ codes "pennies" ∷ codes "2" ∷ []) [] ≡ pennies (codes "12") }
{}

/// Kuhn poker with three cards.
pub fn three_cards()
    ensures { report_of (codes "generate" ∷ codes "kuhn" ∷ codes "3" ∷ []) [] ≡ kuhn (codes "12") }
{}

/// Goofspiel with two cards.
pub fn two_bids()
    ensures { report_of (codes "generate" ∷ codes "goofspiel" ∷ codes "2" ∷ []) [] ≡ goofspiel }
{}

/// Liar's dice with two faces.
pub fn two_faces()
    ensures { report_of (codes "generate" ∷ codes "dice" ∷ codes "2" ∷ []) [] ≡ dice }
{}

/// A kind that is none, sizes that are none, and sizes that a kind does not have.
pub fn not_generated()
    ensures no_kind { report_of (codes "generate" ∷ codes "chess" ∷ codes "3" ∷ []) [] ≡ text (codes "refused 0 UnknownKind" ∷ []) }
    ensures too_small { report_of (codes "generate" ∷ codes "kuhn" ∷ codes "2" ∷ []) [] ≡ text (codes "refused 0 BadSize 3 12" ∷ []) }
    ensures no_number { report_of (codes "generate" ∷ codes "kuhn" ∷ codes "x" ∷ []) [] ≡ text (codes "refused 0 BadNumber 3" ∷ []) }
    ensures no_such_number { report_of (codes "generate" ∷ codes "kuhn" ∷ codes "99999999999" ∷ []) [] ≡ text (codes "refused 0 OutOfRange 3" ∷ []) }
    ensures odd { report_of (codes "generate" ∷ codes "leduc" ∷ codes "5" ∷ []) [] ≡ text (codes "refused 0 BadSize 4 18" ∷ []) }
    ensures too_great { report_of (codes "survey" ∷ codes "dice" ∷ codes "6" ∷ []) [] ≡ text (codes "refused 0 BadSize 2 5" ∷ []) }
{}

/// No node of matching pennies has depth 2.
pub fn survey_of_pennies()
    ensures { report_of (codes "survey" ∷ codes "pennies" ∷ codes "2" ∷ []) []
        ≡ text (codes "survey pennies 2 histories 5 nodes 2 sets 1 1" ∷ codes "blueprint 0/1 0/1" ∷ codes "accepted 0 kept 0" ∷ codes "final 0/1 0/1" ∷ []) }
{}
