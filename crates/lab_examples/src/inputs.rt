//! Inputs that end early or go on too long, and what is written before an input has ended.
ghost use Rattle.std.specs.Prelude.{◌≡◌, ◌++◌, ◌∷◌, []};
ghost use lib.Chars.{codes};
ghost use Rattle.lab_defs_report.specs.Modes.{report_of, replies_of};
ghost use Rattle.lab_examples.specs.Inputs.{text, session, check, print, pennies};
ghost use Rattle.lab_examples.specs.Texts.{loop, forgets, pennies_with, pennies_first};

/// An empty input ends before its first line.
pub fn nothing()
    ensures { report_of session [] ≡ text (codes "refused 1 CutShort" ∷ []) }
{}

/// A game that ends after five lines ends before the sixth.
pub fn five_lines()
    ensures { report_of session (pennies_first 5) ≡ text (codes "refused 6 CutShort" ∷ []) }
{}

/// A line that is begun and not ended.
pub fn five_lines_and_a_byte()
    ensures { report_of session (pennies_first 5 ++ codes "w") ≡ text (codes "refused 6 NoNewline" ∷ []) }
{}

/// The last line of a game has its line feed too.
pub fn all_but_the_last_line_feed()
    ensures { report_of session (pennies_first 19 ++ codes "done") ≡ text (codes "refused 20 NoNewline" ∷ []) }
{}

/// That a game has its last line is looked at before any line.
pub fn a_faulty_game_that_ends_early()
    ensures { report_of session (text (codes "fosg 2" ∷ codes "grid 0" ∷ [])) ≡ text (codes "refused 3 CutShort" ∷ []) }
{}

/// A game without commands has no reply.
pub fn no_commands()
    ensures { report_of session (pennies (codes "2")) ≡ [] }
{}

/// A command line has its line feed; those before it are answered.
pub fn a_command_without_its_line_feed()
    ensures { report_of session (pennies (codes "2") ++ text (codes "blueprint uniform" ∷ []) ++ codes "bound 1")
        ≡ text (codes "blueprint 0/1 0/1" ∷ codes "refused 22 NoNewline" ∷ []) }
{}

/// Whatever else is wrong with it.
pub fn no_command_without_its_line_feed()
    ensures { report_of session (pennies (codes "2") ++ codes "foo  bar") ≡ text (codes "refused 21 NoNewline" ∷ []) }
{}

/// The game is looked at before any command.
pub fn a_faulty_game_and_a_command()
    ensures { report_of session (pennies_with 19 (codes "root win") ++ text (codes "foo" ∷ [])) ≡ text (codes "refused 19 NoRoot" ∷ []) }
{}

/// A game that does not unfold is refused at its last line.
pub fn a_game_without_end()
    ensures { report_of session (loop ++ text (codes "expect uniform" ∷ [])) ≡ text (codes "refused 12 HorizonPassed a" ∷ []) }
{}

/// So is a game without perfect recall.
pub fn a_game_without_recall()
    ensures { report_of session (forgets (codes "seen") ++ text (codes "expect uniform" ∷ [])) ≡ text (codes "refused 20 Forgotten 1 x x" ∷ []) }
{}

/// Behind the last line of a game each line is a command.
pub fn a_second_last_line()
    ensures { report_of session (pennies (codes "2") ++ text (codes "done" ∷ [])) ≡ text (codes "refused 21 BadWord 1" ∷ []) }
{}

/// Nothing is written for an input that has only begun.
pub fn nothing_so_far()
    ensures { replies_of session [] ≡ [] }
{}

/// Nor for a game that may go on.
pub fn five_lines_so_far()
    ensures { replies_of session (pennies_first 5) ≡ [] }
{}

/// Each command is answered once its line has ended.
pub fn a_command_so_far()
    ensures { replies_of session (pennies (codes "2") ++ text (codes "expect uniform" ∷ codes "blueprint uniform" ∷ []) ++ codes "bound 1")
        ≡ text (codes "expect 0/1" ∷ codes "blueprint 0/1 0/1" ∷ []) }
{}

/// A refusal does not wait for the end of the input.
pub fn a_refusal_so_far()
    ensures { replies_of session (pennies (codes "2") ++ text (codes "foo" ∷ codes "expect uniform" ∷ []))
        ≡ text (codes "refused 21 BadWord 1" ∷ []) }
{}

/// Nor does that of a game, once its last line is there.
pub fn a_faulty_game_so_far()
    ensures { replies_of session (pennies_with 19 (codes "root win")) ≡ text (codes "refused 19 NoRoot" ∷ []) }
{}

/// What is said of a game alone waits for the end of the input.
pub fn a_game_to_check_so_far()
    ensures { replies_of check (pennies (codes "2")) ≡ [] }
{}

/// So does its text.
pub fn a_game_to_print_so_far()
    ensures { replies_of print (pennies (codes "2")) ≡ [] }
{}

/// A byte behind the last line does not.
pub fn a_game_to_print_and_a_byte_so_far()
    ensures { replies_of print (pennies (codes "2") ++ codes "x") ≡ text (codes "refused 21 ExtraLine" ∷ []) }
{}

/// Words that are no mode are answered with the usage line, whatever the input.
pub fn a_word_too_many()
    ensures { report_of (codes "session" ∷ codes "x" ∷ []) (pennies (codes "2")) ≡ text (codes "usage: lab session | check | print | verify | generate KIND SIZE | survey KIND SIZE" ∷ []) }
{}

/// So are no words.
pub fn no_words()
    ensures { report_of [] [] ≡ text (codes "usage: lab session | check | print | verify | generate KIND SIZE | survey KIND SIZE" ∷ []) }
{}

/// So is a word in capital letters.
pub fn a_mode_in_capital_letters()
    ensures { report_of (codes "CHECK" ∷ []) [] ≡ text (codes "usage: lab session | check | print | verify | generate KIND SIZE | survey KIND SIZE" ∷ []) }
{}

/// The usage line does not wait for the end of the input.
pub fn a_word_too_many_so_far()
    ensures { replies_of (codes "session" ∷ codes "x" ∷ []) [] ≡ text (codes "usage: lab session | check | print | verify | generate KIND SIZE | survey KIND SIZE" ∷ []) }
{}
