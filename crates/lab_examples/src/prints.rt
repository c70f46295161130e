//! What the mode `print` writes: the canonical text of a game, whatever can be played of it.
ghost use Rattle.std.specs.Prelude.{◌≡◌, ◌++◌, ◌∷◌, []};
ghost use lib.Chars.{codes};
ghost use Rattle.lab_defs_report.specs.Modes.{report_of};
ghost use Rattle.lab_examples.specs.Faulty.{replaced};
ghost use Rattle.lab_examples.specs.Inputs.{text, print, pennies_lines, pennies, fork};
ghost use Rattle.lab_examples.specs.KuhnText.{kuhn};
ghost use Rattle.lab_examples.specs.Texts.{chain, loop, doubling, differs, forgets, pennies_with, pennies_without, pennies_out_of_order};
ghost use Rattle.lab_examples.specs.GeneratedTexts.{goofspiel};

/// A canonical text is printed as it stands.
pub fn pennies_unchanged()
    ensures { report_of print (pennies (codes "2")) ≡ pennies (codes "2") }
{}

/// The rows of a world are put in order.
pub fn rows_in_order()
    ensures { report_of print pennies_out_of_order ≡ pennies (codes "2") }
{}

/// Kuhn poker with three cards.
pub fn kuhn_unchanged()
    ensures { report_of print (kuhn (codes "2")) ≡ kuhn (codes "2") }
{}

/// A game with private colours.
pub fn fork_unchanged()
    ensures { report_of print fork ≡ fork }
{}

/// Goofspiel with two cards.
pub fn goofspiel_unchanged()
    ensures { report_of print goofspiel ≡ goofspiel }
{}

/// A game that never ends has a text.
pub fn loop_unchanged()
    ensures { report_of print loop ≡ loop }
{}

/// So has one of very many histories.
pub fn doubling_unchanged()
    ensures { report_of print doubling ≡ doubling }
{}

/// So has one whose numbers do not fit.
pub fn chain_unchanged()
    ensures { report_of print (chain (codes "2")) ≡ chain (codes "2") }
{}

/// So has one where a seat cannot tell what it may do.
pub fn differs_unchanged()
    ensures { report_of print differs ≡ differs }
{}

/// So has one where a seat forgets.
pub fn forgets_unchanged()
    ensures { report_of print (forgets (codes "seen")) ≡ forgets (codes "seen") }
{}

/// A number has one spelling.
pub fn a_leading_zero()
    ensures { report_of print (pennies_with 2 (codes "grid 02")) ≡ text (codes "refused 2 BadNumber 2" ∷ []) }
{}

/// It has no plus sign.
pub fn a_plus_sign()
    ensures { report_of print (pennies_with 2 (codes "grid +2")) ≡ text (codes "refused 2 BadNumber 2" ∷ []) }
{}

/// Two spaces have an empty piece between them.
pub fn two_spaces()
    ensures { report_of print (pennies_with 2 (codes "grid  2")) ≡ text (codes "refused 2 BadSpace 2" ∷ []) }
{}

/// A grid has at most 4096 steps.
pub fn a_grid_too_fine()
    ensures { report_of print (pennies_with 2 (codes "grid 4097")) ≡ text (codes "refused 2 OutOfRange 2" ∷ []) }
{}

/// An outcome leads to a world or an end that is declared.
pub fn an_unknown_world()
    ensures { report_of print (pennies_with 10 (codes "to 1 won - - -")) ≡ text (codes "refused 10 UnknownName 3" ∷ []) }
{}

/// A joint action has one row.
pub fn a_row_twice()
    ensures { report_of print (pennies_with 11 (codes "row s1 s1")) ≡ text (codes "refused 11 ExtraRow" ∷ []) }
{}

/// It has a row.
pub fn a_row_too_few()
    ensures { report_of print (pennies_without 11 12) ≡ text (codes "refused 6 MissingRow s1 s2" ∷ []) }
{}

/// A name is declared once.
pub fn an_end_twice()
    ensures { report_of print (pennies_with 18 (codes "end win -1")) ≡ text (codes "refused 18 Twice 2" ∷ []) }
{}

/// The root is a world.
pub fn an_end_as_root()
    ensures { report_of print (pennies_with 19 (codes "root win")) ≡ text (codes "refused 19 NoRoot" ∷ []) }
{}

/// Nothing stands behind the last line.
pub fn a_line_too_many()
    ensures { report_of print (pennies (codes "2") ++ text (codes "done" ∷ [])) ≡ text (codes "refused 21 ExtraLine" ∷ []) }
{}

/// The faults of the text come before it.
pub fn a_faulty_text_and_a_line_too_many()
    ensures { report_of print (pennies_with 11 (codes "row s1 s1") ++ text (codes "x" ∷ [])) ≡ text (codes "refused 11 ExtraRow" ∷ []) }
{}

/// A game that never ends has no fault of its text.
pub fn a_loop_and_a_line_too_many()
    ensures { report_of print (loop ++ text (codes "x" ∷ [])) ≡ text (codes "refused 13 ExtraLine" ∷ []) }
{}

/// The faults within a line come before those of the whole game.
pub fn an_unknown_world_and_an_end_twice()
    ensures { report_of print (text (replaced 10 (codes "to 1 won - - -") (replaced 18 (codes "end win -1") (pennies_lines (codes "2")))))
        ≡ text (codes "refused 18 Twice 2" ∷ []) }
{}
