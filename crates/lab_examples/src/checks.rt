//! What the mode `check` says of games, and which it refuses.
ghost use Rattle.std.specs.Prelude.{◌≡◌, ◌++◌, ◌∷◌, []};
ghost use lib.Chars.{codes};
ghost use Rattle.lab_defs_report.specs.Modes.{report_of};
ghost use Rattle.lab_examples.specs.Inputs.{text, check, pennies, fork};
ghost use Rattle.lab_examples.specs.KuhnText.{kuhn};
ghost use Rattle.lab_examples.specs.Texts.{chain, long_chain, uneven_rows, loop, doubling, differs, forgets, pennies_with, pennies_first};
ghost use Rattle.lab_examples.specs.GeneratedTexts.{goofspiel, dice};

/// Matching pennies: two sides for each seat.
pub fn pennies_in_short()
    ensures { report_of check (pennies (codes "2")) ≡ text (codes "game histories 5 nodes 2 sets 1 1 most 1 1 scale 1" ∷ []) }
{}

/// Kuhn poker with three cards.
pub fn kuhn_in_short()
    ensures { report_of check (kuhn (codes "2")) ≡ text (codes "game histories 55 nodes 10 sets 13 13 most 2 1 scale 6" ∷ []) }
{}

/// A game where only seat 2 gets a private colour.
pub fn fork_in_short()
    ensures { report_of check fork ≡ text (codes "game histories 8 nodes 4 sets 2 3 most 1 1 scale 2" ∷ []) }
{}

/// Goofspiel with two cards.
pub fn goofspiel_in_short()
    ensures { report_of check goofspiel ≡ text (codes "game histories 9 nodes 7 sets 5 5 most 1 1 scale 1" ∷ []) }
{}

/// Liar's dice with two faces.
pub fn dice_in_short()
    ensures { report_of check dice ≡ text (codes "game histories 125 nodes 32 sets 33 33 most 2 2 scale 4" ∷ []) }
{}

/// A chain of heavy steps whose numbers just fit.
pub fn chain_of_one()
    ensures { report_of check (chain (codes "1")) ≡ text (codes "game histories 5 nodes 5 sets 4 4 most 0 0 scale 18446744073709551616" ∷ []) }
{}

/// A payoff of 2 in its place does not fit.
pub fn chain_of_two()
    ensures { report_of check (chain (codes "2")) ≡ text (codes "refused 28 SizePassed 2 18446744073709551616 0 0" ∷ []) }
{}

/// A scale of 2^80 is told.
pub fn the_greatest_scale_told()
    ensures { report_of check (long_chain (codes "1")) ≡ text (codes "refused 33 SizePassed 1 1208925819614629174706176 0 0" ∷ []) }
{}

/// Of one that is greater the report says no more than that.
pub fn a_scale_past_it()
    ensures { report_of check (long_chain (codes "2")) ≡ text (codes "refused 33 SizePassed 1 over 0 0" ∷ []) }
{}

/// Rows of weights 2 and 4 at one step are counted in quarters, their least common multiple.
pub fn uneven_rows_in_quarters()
    ensures { report_of check uneven_rows ≡ text (codes "game histories 5 nodes 2 sets 1 1 most 1 0 scale 4" ∷ []) }
{}

/// A world that leads back to itself passes any horizon.
pub fn loop_in_short()
    ensures { report_of check loop ≡ text (codes "refused 12 HorizonPassed a" ∷ []) }
{}

/// A world that leads back to itself twice has too many histories before it passes a long one.
pub fn doubling_in_short()
    ensures { report_of check doubling ≡ text (codes "refused 13 TooManyHistories 16" ∷ []) }
{}

/// Where a seat cannot tell worlds apart it has the same actions.
pub fn differs_in_short()
    ensures { report_of check differs ≡ text (codes "refused 26 LegalDiffers 1 x y" ∷ []) }
{}

/// A seat that sees no action of its own forgets.
pub fn forgets_in_short()
    ensures { report_of check (forgets (codes "seen")) ≡ text (codes "refused 20 Forgotten 1 x x" ∷ []) }
{}

/// A seat that sees its actions does not.
pub fn remembers_in_short()
    ensures { report_of check (forgets (codes "acts")) ≡ text (codes "game histories 5 nodes 3 sets 3 2 most 1 0 scale 1" ∷ []) }
{}

/// No text at all.
pub fn nothing()
    ensures { report_of check [] ≡ text (codes "refused 1 CutShort" ∷ []) }
{}

/// Nothing stands behind the last line.
pub fn a_line_too_many()
    ensures { report_of check (pennies (codes "2") ++ text (codes "expect uniform" ∷ [])) ≡ text (codes "refused 21 ExtraLine" ∷ []) }
{}

/// Not even a byte.
pub fn a_byte_too_many()
    ensures { report_of check (pennies (codes "2") ++ codes "x") ≡ text (codes "refused 21 ExtraLine" ∷ []) }
{}

/// Not even a line feed.
pub fn a_line_feed_too_many()
    ensures { report_of check (pennies (codes "2") ++ text (codes "" ∷ [])) ≡ text (codes "refused 21 ExtraLine" ∷ []) }
{}

/// The faults of the game come before it.
pub fn a_loop_and_a_line_too_many()
    ensures { report_of check (loop ++ text (codes "x" ∷ [])) ≡ text (codes "refused 12 HorizonPassed a" ∷ []) }
{}

/// All of them.
pub fn a_seat_that_forgets_and_a_line_too_many()
    ensures { report_of check (forgets (codes "seen") ++ text (codes "x" ∷ [])) ≡ text (codes "refused 20 Forgotten 1 x x" ∷ []) }
{}

/// The last line has its line feed.
pub fn a_game_without_its_last_line_feed()
    ensures { report_of check (pennies_first 19 ++ codes "done") ≡ text (codes "refused 20 NoNewline" ∷ []) }
{}

/// The text is looked at before the game.
pub fn a_root_that_is_an_end()
    ensures { report_of check (pennies_with 19 (codes "root lose")) ≡ text (codes "refused 19 NoRoot" ∷ []) }
{}
