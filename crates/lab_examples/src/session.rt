//! What this program writes, as far as it is built, in the modes `session` and `check`.
ghost use Rattle.std.specs.Prelude.{◌≡◌, ◌++◌, ◌∷◌, []};
ghost use lib.Chars.{codes};
ghost use Rattle.lab_defs_report.specs.Modes.{this_program, report_in, replies_in};
ghost use Rattle.lab_examples.specs.Inputs.{text, session, check, verify, pennies, fork};
ghost use Rattle.lab_examples.specs.Texts.{uneven_rows, loop};

/// Matching pennies on a grid of 2 is fair.
pub fn pennies_on_an_even_grid()
    ensures { report_in this_program session (pennies (codes "2") ++ text (codes "expect uniform" ∷ [])) ≡ text (codes "expect 0/1" ∷ []) }
{}

/// On a grid of 3 the even split favours the first side: 2 to 1.
pub fn pennies_on_an_odd_grid()
    ensures { report_in this_program session (pennies (codes "3") ++ text (codes "expect uniform" ∷ [])) ≡ text (codes "expect 1/9" ∷ []) }
{}

/// Each command has its reply.
pub fn pennies_twice()
    ensures { report_in this_program session (pennies (codes "3") ++ text (codes "expect uniform" ∷ codes "expect uniform" ∷ [])) ≡ text (codes "expect 1/9" ∷ codes "expect 1/9" ∷ []) }
{}

/// A game without commands has no reply.
pub fn pennies_alone()
    ensures { report_in this_program session (pennies (codes "2")) ≡ [] }
{}

/// An empty input ends before its game does.
pub fn empty()
    ensures { report_in this_program session [] ≡ text (codes "refused 1 CutShort" ∷ []) }
{}

/// Chance, and a choice of the second seat, come before that of the first.
pub fn fork_with_even_splits()
    ensures { report_in this_program session (fork ++ text (codes "expect uniform" ∷ [])) ≡ text (codes "expect -5/6" ∷ []) }
{}

/// Each row has its own whole: by halves seat 1 earns nothing, by quarters it loses a half, so that it expects to lose a quarter.
pub fn uneven_rows_with_even_splits()
    ensures { report_in this_program session (uneven_rows ++ text (codes "expect uniform" ∷ [])) ≡ text (codes "expect -1/4" ∷ []) }
{}

/// A game that does not end is refused at its last line, before any command.
pub fn no_end()
    ensures { report_in this_program session (loop ++ text (codes "expect uniform" ∷ [])) ≡ text (codes "refused 12 HorizonPassed a" ∷ []) }
{}

/// The histories, nodes, sets, decisions and the scale are counted.
pub fn counts_of_fork()
    ensures { report_in this_program check fork ≡ text (codes "game histories 8 nodes 4 sets 2 3 most 1 1 scale 2" ∷ []) }
{}

/// Another command is not built, whatever stood before.
pub fn another_command()
    ensures { report_in this_program session (pennies (codes "2") ++ text (codes "expect uniform" ∷ codes "cert 1" ∷ [])) ≡ text (codes "expect 0/1" ∷ codes "refused 22 NotBuilt" ∷ []) }
{}

/// A line that is no command has its fault.
pub fn no_command()
    ensures { report_in this_program session (pennies (codes "2") ++ text (codes "bound x" ∷ [])) ≡ text (codes "refused 21 BadNumber 2" ∷ []) }
{}

/// A command that no line feed ends is not one.
pub fn no_line_feed()
    ensures { report_in this_program session (pennies (codes "2") ++ codes "expect uniform") ≡ text (codes "refused 21 NoNewline" ∷ []) }
{}

/// One number has one spelling.
pub fn a_leading_zero()
    ensures { report_in this_program session (pennies (codes "02") ++ text (codes "expect uniform" ∷ [])) ≡ text (codes "refused 2 BadNumber 2" ∷ []) }
{}

/// A command is answered once its line has ended.
pub fn a_command_so_far()
    ensures { replies_in this_program session (pennies (codes "2") ++ text (codes "expect uniform" ∷ [])) ≡ text (codes "expect 0/1" ∷ []) }
{}

/// A line that no line feed has ended yet has no reply.
pub fn a_command_and_part_of_another_so_far()
    ensures { replies_in this_program session (pennies (codes "2") ++ text (codes "expect uniform" ∷ []) ++ codes "expect uni") ≡ text (codes "expect 0/1" ∷ []) }
{}

/// A fault of the game does not wait for the end.
pub fn a_leading_zero_so_far()
    ensures { replies_in this_program session (pennies (codes "02")) ≡ text (codes "refused 2 BadNumber 2" ∷ []) }
{}

/// Words that are no mode are answered with the usage line.
pub fn no_mode()
    ensures { report_in this_program (codes "session" ∷ codes "x" ∷ []) [] ≡ text (codes "usage: lab session | check | print | verify | generate KIND SIZE | survey KIND SIZE" ∷ []) }
{}

/// So is a mode that is not built.
pub fn another_mode()
    ensures { report_in this_program verify [] ≡ text (codes "usage: lab session | check | print | verify | generate KIND SIZE | survey KIND SIZE" ∷ []) }
{}
