//! Texts that are read to their games, and the first fault of texts that are not.
ghost use Rattle.std.specs.Prelude.{◌≡◌, ◌++◌, [], Ok, Err};
ghost use lib.Chars.{codes};
ghost use Rattle.lab_defs_text.specs.Faults.{lexical, bad_space_at, bad_name_at, bad_number_at, out_of_range_at, bad_word_at, twice_at, cut_short, no_newline, extra_line, in_line, unknown_name, extra_row, missing_row, no_root};
ghost use Rattle.lab_defs_text.specs.Texts.{canonical};
ghost use Rattle.lab_defs_text.specs.Readings.{game_of};
ghost use Rattle.lab_examples.specs.Faulty.{toss, toss_lines, toss_in_order, reprinted, replaced, with_line_as, first_lines, without_lines};
ghost use Rattle.lab_examples.specs.Inputs.{text, pennies, fork};

/// Rows may stand in any order.
pub fn rows_out_of_order()
    ensures { game_of (first_lines 18) ≡ Ok toss }
{}

/// The canonical text has them in order.
pub fn rows_in_order()
    ensures { canonical toss ≡ toss_in_order }
{}

/// It is read to the same game.
pub fn canonical_text()
    ensures { game_of toss_in_order ≡ Ok toss }
{}

/// Of a text with its rows out of order the canonical one is another.
pub fn put_in_order()
    ensures { reprinted (first_lines 18) ≡ Ok toss_in_order }
{}

/// Matching pennies are in order.
pub fn pennies_are_in_order()
    ensures { reprinted (pennies (codes "4096")) ≡ Ok (pennies (codes "4096")) }
{}

/// So is a game with three worlds.
pub fn fork_is_in_order()
    ensures { reprinted fork ≡ Ok fork }
{}

/// Two spaces have an empty piece between them.
pub fn two_spaces()
    ensures { game_of (with_line_as 8 (codes "one h  t")) ≡ Err (in_line 8 (lexical (bad_space_at 3))) }
{}

/// So has a space at the end behind it.
pub fn a_space_at_the_end()
    ensures { game_of (with_line_as 17 (codes "root toss ")) ≡ Err (in_line 17 (lexical (bad_space_at 3))) }
{}

/// An empty line is an empty piece.
pub fn an_empty_line()
    ensures { game_of (with_line_as 2 (codes "")) ≡ Err (in_line 2 (lexical (bad_space_at 1))) }
{}

/// The actions of seat 2 do not follow a world's name.
pub fn a_line_too_early()
    ensures { game_of (with_line_as 8 (codes "two h t")) ≡ Err (in_line 8 (bad_word_at 1)) }
{}

/// The first missing word.
pub fn a_word_too_few()
    ensures { game_of (with_line_as 11 (codes "to 03 win - red")) ≡ Err (in_line 11 (bad_word_at 6)) }
{}

/// The first extra word, before what is wrong with another one.
pub fn a_word_too_many()
    ensures { game_of (with_line_as 11 (codes "to 03 win - red - -")) ≡ Err (in_line 11 (bad_word_at 7)) }
{}

/// Some action must be there.
pub fn no_action()
    ensures { game_of (with_line_as 9 (codes "two")) ≡ Err (in_line 9 (bad_word_at 2)) }
{}

/// There is one format.
pub fn another_format()
    ensures { game_of (with_line_as 1 (codes "fosg 2")) ≡ Err (in_line 1 (bad_word_at 2)) }
{}

/// There are two kinds of memory.
pub fn another_memory()
    ensures { game_of (with_line_as 4 (codes "memory all")) ≡ Err (in_line 4 (bad_word_at 2)) }
{}

/// A byte that names do not have.
pub fn a_plus_sign_in_a_name()
    ensures { game_of (with_line_as 7 (codes "world a+b")) ≡ Err (in_line 7 (lexical (bad_name_at 2))) }
{}

/// One number has one spelling.
pub fn a_leading_zero()
    ensures { game_of (with_line_as 2 (codes "grid 02")) ≡ Err (in_line 2 (lexical (bad_number_at 2))) }
{}

/// A grid has at most 4096 steps.
pub fn a_grid_too_fine()
    ensures { game_of (with_line_as 2 (codes "grid 4097")) ≡ Err (in_line 2 (lexical (out_of_range_at 2))) }
{}

/// A payoff is at least -1048576.
pub fn a_payoff_too_low()
    ensures { game_of (with_line_as 16 (codes "end lose -1048577")) ≡ Err (in_line 16 (lexical (out_of_range_at 3))) }
{}

/// An action that stands earlier in its list.
pub fn an_action_twice()
    ensures { game_of (with_line_as 8 (codes "one h t h")) ≡ Err (in_line 8 (twice_at 4)) }
{}

/// Worlds and ends have one list of names.
pub fn an_end_named_as_a_world()
    ensures { game_of (with_line_as 15 (codes "end toss 1")) ≡ Err (in_line 15 (twice_at 2)) }
{}

/// A token that is not declared.
pub fn an_unknown_token()
    ensures { game_of (with_line_as 11 (codes "to 3 win - blue blue")) ≡ Err (unknown_name 11 5) }
{}

/// A root that is not declared.
pub fn an_unknown_root()
    ensures { game_of (with_line_as 17 (codes "root tossed")) ≡ Err (unknown_name 17 2) }
{}

/// All names are looked at before any joint action.
pub fn an_unknown_root_behind_a_row_of_another_action()
    ensures { game_of (text (replaced 13 (codes "row h t") (replaced 17 (codes "root tossed") toss_lines))) ≡ Err (unknown_name 17 2) }
{}

/// All rows are looked at before one is missing.
pub fn a_row_of_another_action_in_a_world_with_a_row_too_few()
    ensures { game_of (text (replaced 9 (codes "two x .") (replaced 13 (codes "row . h") toss_lines))) ≡ Err (extra_row 13) }
{}

/// A row with an action that is not legal.
pub fn a_row_of_another_action()
    ensures { game_of (with_line_as 13 (codes "row h t")) ≡ Err (extra_row 13) }
{}

/// A second row of a joint action.
pub fn a_row_twice()
    ensures { game_of (with_line_as 13 (codes "row t .")) ≡ Err (extra_row 13) }
{}

/// The first joint action without a row, by the places of its actions.
pub fn a_row_too_few()
    ensures { game_of (with_line_as 9 (codes "two . x")) ≡ Err (missing_row 7 0 1) }
{}

/// The root is a world.
pub fn an_end_as_root()
    ensures { game_of (with_line_as 17 (codes "root win")) ≡ Err (no_root 17) }
{}

/// No text at all.
pub fn nothing()
    ensures { game_of [] ≡ Err (cut_short 1) }
{}

/// A text that ends before its last line.
pub fn the_end_too_early()
    ensures { game_of (first_lines 17) ≡ Err (cut_short 18) }
{}

/// A line that no line feed ends is not one, whatever else is wrong with it.
pub fn a_line_without_its_end()
    ensures { game_of (first_lines 7 ++ codes "one h  t") ≡ Err (no_newline 8) }
{}

/// Nothing stands behind the last line.
pub fn a_line_too_many()
    ensures { game_of (first_lines 18 ++ codes "x") ≡ Err (extra_line 19) }
{}

/// A world without rows is none: its line is followed by another.
pub fn no_row()
    ensures { game_of (without_lines 10 14) ≡ Err (in_line 10 (bad_word_at 1)) }
{}
