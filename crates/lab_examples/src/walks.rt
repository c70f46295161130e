//! Walks by words that are drawn with.
ghost use Rattle.std.specs.Prelude.{◌≡◌, ◌++◌, ◌∷◌, []};
ghost use lib.Chars.{codes};
ghost use Rattle.lab_defs_report.specs.Modes.{report_of};
ghost use Rattle.lab_defs_report.specs.Walks.{drawn, pcg64_stream, next_words};
ghost use Rattle.lab_examples.specs.Inputs.{text, session, pennies};
ghost use Rattle.lab_examples.specs.Texts.{chain};
ghost use Rattle.lab_examples.specs.KuhnText.{kuhn};

/// A word of 0 draws the first item with a weight, the greatest word the last one.
pub fn draws()
    ensures first { drawn (0 ∷ 2 ∷ 1 ∷ []) 0 ≡ 1 }
    ensures last { drawn (0 ∷ 2 ∷ 1 ∷ []) 18446744073709551615 ≡ 2 }
    ensures just_below { drawn (1 ∷ 1 ∷ []) 9223372036854775807 ≡ 0 }
    ensures half { drawn (1 ∷ 1 ∷ []) 9223372036854775808 ≡ 1 }
{}

/// Seat 1 draws with the first word, seat 2 with the second.
pub fn dealt()
    ensures { report_of session (pennies (codes "2") ++ text (codes "blueprint uniform" ∷ codes "deal 0 9223372036854775808" ∷ []))
        ≡ text (codes "blueprint 0/1 0/1" ∷ codes "deal -1 s1 s2 lose" ∷ []) }
{}

/// One word more is needed.
pub fn too_few_words()
    ensures { report_of session (pennies (codes "2") ++ text (codes "blueprint uniform" ∷ codes "deal 0" ∷ []))
        ≡ text (codes "blueprint 0/1 0/1" ∷ codes "refused 22 FewWords 2" ∷ []) }
{}

/// The walk ends before the last word.
pub fn too_many_words()
    ensures { report_of session (pennies (codes "2") ++ text (codes "blueprint uniform" ∷ codes "deal 0 0 0" ∷ []))
        ≡ text (codes "blueprint 0/1 0/1" ∷ codes "refused 22 ExtraWords 2" ∷ []) }
{}

/// Chance draws the cards, then each seat acts in turn.
pub fn dealt_kuhn()
    ensures { report_of session (kuhn (codes "2") ++ text (codes "blueprint uniform" ∷ codes "deal 0 9223372036854775808 0" ∷ []))
        ≡ text (codes "blueprint 5/12 1/2" ∷ codes "deal 1 . . k-1-2-0 bet . k-1-2-b . fold e-1" ∷ []) }
{}

/// Where nobody chooses no word is used, and each round pays the same.
pub fn rounds_without_choices()
    ensures { report_of session (chain (codes "1") ++ text (codes "blueprint uniform" ∷ codes "play 3" ∷ codes "propose 1 0 cfrd" ∷ []))
        ≡ text (codes "blueprint -1/1 1/1" ∷ codes "play 3 3" ∷ codes "refused 31 NoDecision" ∷ []) }
{}

/// Commands of walks need a blueprint, and their words are looked at before.
pub fn before_a_blueprint()
    ensures of_a_deal { report_of session (pennies (codes "2") ++ text (codes "deal 0 0" ∷ [])) ≡ text (codes "refused 21 NoBlueprint" ∷ []) }
    ensures of_play { report_of session (pennies (codes "2") ++ text (codes "play 0" ∷ [])) ≡ text (codes "refused 21 OutOfRange 2" ∷ []) }
{}

/// The first words of the generator with the seed 2.
pub fn words_of_a_seed()
    ensures { next_words 2 (pcg64_stream 2) ≡ 1084574603684186893 ∷ 8211647272575494725 ∷ [] }
{}

/// Three rounds of matching pennies on the second command line.
pub fn three_rounds()
    ensures { report_of session (pennies (codes "2") ++ text (codes "blueprint uniform" ∷ codes "play 3" ∷ []))
        ≡ text (codes "blueprint 0/1 0/1" ∷ codes "play 3 -1" ∷ []) }
{}
