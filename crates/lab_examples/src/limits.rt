//! Lines and inputs up to their limits and past them.
ghost use Rattle.std.specs.Prelude.{◌≡◌, ◌∷◌, [], Some, None, true, false};
ghost use lib.Chars.{codes};
ghost use Rattle.lab_defs_report.specs.Cuts.{passed_limit};
ghost use Rattle.lab_examples.specs.Inputs.{text};
ghost use Rattle.lab_examples.specs.Sessions.{fork_replies};

/// A line has at most 1048576 bytes before its line feed.
pub fn a_line_of_the_most_bytes()
    ensures { passed_limit (codes "GameTooLong") 16777216 1048576 1 ≡ None }
{}

/// One byte more is too long, before its line feed is read.
pub fn a_line_past_the_most_bytes()
    ensures { passed_limit (codes "GameTooLong") 16777216 1048577 0 ≡ Some (codes "LineTooLong") }
{}

/// The lines of a game may use up their bytes.
pub fn a_game_of_the_most_bytes()
    ensures { passed_limit (codes "GameTooLong") 1048576 1048575 1 ≡ None }
{}

/// The line feed counts.
pub fn a_line_feed_past_the_most_bytes()
    ensures { passed_limit (codes "GameTooLong") 1048576 1048576 1 ≡ Some (codes "GameTooLong") }
{}

/// Not before it is read.
pub fn a_line_feed_still_to_come()
    ensures { passed_limit (codes "GameTooLong") 1048576 1048576 0 ≡ None }
{}

/// Where one byte passes both limits the line is what is too long.
pub fn both_at_one_byte()
    ensures { passed_limit (codes "GameTooLong") 1048576 1048577 0 ≡ Some (codes "LineTooLong") }
{}

/// Where the limit of the game is passed a byte earlier, the game is.
pub fn the_game_a_byte_earlier()
    ensures { passed_limit (codes "GameTooLong") 1048575 1048577 0 ≡ Some (codes "GameTooLong") }
{}

/// With no byte left the first is too much.
pub fn no_bytes_left()
    ensures { passed_limit (codes "InputTooLong") 0 1 0 ≡ Some (codes "InputTooLong") }
{}

/// None is not.
pub fn nothing_more()
    ensures { passed_limit (codes "InputTooLong") 0 0 0 ≡ None }
{}

/// A command line that uses up the bytes is answered.
pub fn a_command_of_all_the_bytes()
    ensures { fork_replies true 15 (text (codes "expect uniform" ∷ [])) ≡ text (codes "expect -5/6" ∷ []) }
{}

/// A command line that passes them is not, by its line feed or by a byte before.
pub fn a_command_past_the_bytes()
    ensures { fork_replies true 14 (text (codes "expect uniform" ∷ [])) ≡ text (codes "refused 37 InputTooLong" ∷ []) }
{}

/// Each line takes its bytes from those of the next.
pub fn a_second_command_past_the_bytes()
    ensures { fork_replies true 21 (text (codes "expect uniform" ∷ codes "expect" ∷ [])) ≡ text (codes "expect -5/6" ∷ codes "refused 38 InputTooLong" ∷ []) }
{}

/// With one byte more the second line is answered.
pub fn a_second_command_of_all_the_bytes()
    ensures { fork_replies true 22 (text (codes "expect uniform" ∷ codes "expect" ∷ [])) ≡ text (codes "expect -5/6" ∷ codes "refused 38 NoBlueprint" ∷ []) }
{}

/// A line that has not ended passes them too.
pub fn an_unfinished_line_past_the_bytes()
    ensures { fork_replies true 4 (codes "expect") ≡ text (codes "refused 37 InputTooLong" ∷ []) }
{}

/// Its refusal does not wait for the end of the input.
pub fn an_unfinished_line_past_the_bytes_so_far()
    ensures { fork_replies false 4 (codes "expect") ≡ text (codes "refused 37 InputTooLong" ∷ []) }
{}

/// Within them nothing is written for it.
pub fn an_unfinished_line_so_far()
    ensures { fork_replies false 6 (codes "expect") ≡ [] }
{}
