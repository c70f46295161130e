//! Command lines that a session refuses, each for the first of the reasons that it has.
ghost use Rattle.std.specs.Prelude.{◌≡◌, ◌++◌, ◌∷◌, []};
ghost use lib.Chars.{codes};
ghost use Rattle.lab_defs_report.specs.Modes.{report_of};
ghost use Rattle.lab_examples.specs.Inputs.{text, session, pennies};

/// Two spaces have an empty piece between them.
pub fn two_spaces()
    ensures { report_of session (pennies (codes "2") ++ text (codes "expect  uniform" ∷ [])) ≡ text (codes "refused 21 BadSpace 2" ∷ []) }
{}

/// Spaces are looked at before any word.
pub fn two_spaces_in_an_unknown_command()
    ensures { report_of session (pennies (codes "2") ++ text (codes "foo  bar" ∷ [])) ≡ text (codes "refused 21 BadSpace 2" ∷ []) }
{}

/// A space at the end has an empty piece behind it.
pub fn a_space_at_the_end()
    ensures { report_of session (pennies (codes "2") ++ text (codes "expect " ∷ [])) ≡ text (codes "refused 21 BadSpace 2" ∷ []) }
{}

/// A space at the start has an empty piece before it.
pub fn a_space_at_the_start()
    ensures { report_of session (pennies (codes "2") ++ text (codes " expect" ∷ [])) ≡ text (codes "refused 21 BadSpace 1" ∷ []) }
{}

/// An empty line is an empty piece.
pub fn an_empty_line()
    ensures { report_of session (pennies (codes "2") ++ text (codes "" ∷ [])) ≡ text (codes "refused 21 BadSpace 1" ∷ []) }
{}

/// A command begins with one of its words.
pub fn an_unknown_command()
    ensures { report_of session (pennies (codes "2") ++ text (codes "foo" ∷ [])) ≡ text (codes "refused 21 BadWord 1" ∷ []) }
{}

/// They are in small letters.
pub fn a_capital_letter()
    ensures { report_of session (pennies (codes "2") ++ text (codes "Expect" ∷ [])) ≡ text (codes "refused 21 BadWord 1" ∷ []) }
{}

/// What is expected is that of the even split or that of the blueprint.
pub fn an_unknown_expectation()
    ensures { report_of session (pennies (codes "2") ++ text (codes "expect foo" ∷ [])) ≡ text (codes "refused 21 BadWord 2" ∷ []) }
{}

/// The unknown word is named before the extra one.
pub fn an_unknown_expectation_and_a_word_too_many()
    ensures { report_of session (pennies (codes "2") ++ text (codes "expect foo bar" ∷ [])) ≡ text (codes "refused 21 BadWord 2" ∷ []) }
{}

/// A word too many is named.
pub fn an_expectation_and_a_word_too_many()
    ensures { report_of session (pennies (codes "2") ++ text (codes "expect uniform uniform" ∷ [])) ≡ text (codes "refused 21 BadWord 3" ∷ []) }
{}

/// A blueprint is of some kind.
pub fn a_blueprint_of_no_kind()
    ensures { report_of session (pennies (codes "2") ++ text (codes "blueprint" ∷ [])) ≡ text (codes "refused 21 BadWord 2" ∷ []) }
{}

/// That kind is a known one.
pub fn a_blueprint_of_an_unknown_kind()
    ensures { report_of session (pennies (codes "2") ++ text (codes "blueprint foo bar" ∷ [])) ≡ text (codes "refused 21 BadWord 2" ∷ []) }
{}

/// The uniform one takes no weights.
pub fn a_blueprint_and_a_word_too_many()
    ensures { report_of session (pennies (codes "2") ++ text (codes "blueprint uniform 1" ∷ [])) ≡ text (codes "refused 21 BadWord 3" ∷ []) }
{}

/// A weight is a number.
pub fn a_weight_that_is_no_number()
    ensures { report_of session (pennies (codes "2") ++ text (codes "blueprint given 1 x 99999999999" ∷ []))
        ≡ text (codes "refused 21 BadNumber 4" ∷ []) }
{}

/// The words are looked at from left to right.
pub fn a_weight_past_its_range()
    ensures { report_of session (pennies (codes "2") ++ text (codes "blueprint given 1 4294967296 x" ∷ []))
        ≡ text (codes "refused 21 OutOfRange 4" ∷ []) }
{}

/// No weights at all are too few.
pub fn no_weights()
    ensures { report_of session (pennies (codes "2") ++ text (codes "blueprint given" ∷ [])) ≡ text (codes "refused 21 WrongCount 4 0" ∷ []) }
{}

/// A bound is one of a seat.
pub fn a_missing_seat()
    ensures { report_of session (pennies (codes "2") ++ text (codes "bound" ∷ [])) ≡ text (codes "refused 21 BadWord 2" ∷ []) }
{}

/// A word too many is named before the seat is looked at.
pub fn a_word_behind_the_seat()
    ensures { report_of session (pennies (codes "2") ++ text (codes "bound x 2" ∷ [])) ≡ text (codes "refused 21 BadWord 3" ∷ []) }
{}

/// A seat is a number.
pub fn a_seat_that_is_no_number()
    ensures { report_of session (pennies (codes "2") ++ text (codes "bound one" ∷ [])) ≡ text (codes "refused 21 BadNumber 2" ∷ []) }
{}

/// A number has one spelling.
pub fn a_seat_with_a_leading_zero()
    ensures { report_of session (pennies (codes "2") ++ text (codes "show 01" ∷ [])) ≡ text (codes "refused 21 BadNumber 2" ∷ []) }
{}

/// It has no plus sign.
pub fn a_seat_with_a_plus_sign()
    ensures { report_of session (pennies (codes "2") ++ text (codes "show +1" ∷ [])) ≡ text (codes "refused 21 BadNumber 2" ∷ []) }
{}

/// A number is not negative here.
pub fn a_negative_seat()
    ensures { report_of session (pennies (codes "2") ++ text (codes "bound -1" ∷ [])) ≡ text (codes "refused 21 OutOfRange 2" ∷ []) }
{}

/// A number has at most 32 bits.
pub fn a_seat_past_its_range()
    ensures { report_of session (pennies (codes "2") ++ text (codes "bound 4294967296" ∷ [])) ≡ text (codes "refused 21 OutOfRange 2" ∷ []) }
{}

/// The last of these is a number; that there is a blueprint is looked at before the seat.
pub fn a_seat_at_the_end_of_its_range()
    ensures { report_of session (pennies (codes "2") ++ text (codes "bound 4294967295" ∷ [])) ≡ text (codes "refused 21 NoBlueprint" ∷ []) }
{}

/// With a blueprint it is no seat.
pub fn a_seat_that_is_none()
    ensures { report_of session (pennies (codes "2") ++ text (codes "blueprint uniform" ∷ codes "bound 4294967295" ∷ []))
        ≡ text (codes "blueprint 0/1 0/1" ∷ codes "refused 22 BadSeat" ∷ []) }
{}

/// Nor is 0.
pub fn a_seat_of_no_number()
    ensures { report_of session (pennies (codes "2") ++ text (codes "blueprint uniform" ∷ codes "show 0" ∷ []))
        ≡ text (codes "blueprint 0/1 0/1" ∷ codes "refused 22 BadSeat" ∷ []) }
{}

/// However many digits it has, a number is one.
pub fn a_very_long_number()
    ensures { report_of session (pennies (codes "2") ++ text (codes "bound 123456789012345678901234567890" ∷ []))
        ≡ text (codes "refused 21 OutOfRange 2" ∷ []) }
{}

/// A proposal names its seat.
pub fn propose_alone()
    ensures { report_of session (pennies (codes "2") ++ text (codes "propose" ∷ [])) ≡ text (codes "refused 21 BadWord 2" ∷ []) }
{}

/// It names its node.
pub fn propose_without_node()
    ensures { report_of session (pennies (codes "2") ++ text (codes "propose x" ∷ [])) ≡ text (codes "refused 21 BadWord 3" ∷ []) }
{}

/// It names its rule; what is missing comes first.
pub fn propose_without_rule()
    ensures { report_of session (pennies (codes "2") ++ text (codes "propose x y" ∷ [])) ≡ text (codes "refused 21 BadWord 4" ∷ []) }
{}

/// The seat is looked at before the rule.
pub fn propose_with_wrong_words()
    ensures { report_of session (pennies (codes "2") ++ text (codes "propose x 4 foo" ∷ [])) ≡ text (codes "refused 21 BadNumber 2" ∷ []) }
{}

/// The node is a number.
pub fn propose_at_a_word()
    ensures { report_of session (pennies (codes "2") ++ text (codes "propose 1 root cfrd" ∷ [])) ≡ text (codes "refused 21 BadNumber 3" ∷ []) }
{}

/// There are three rules.
pub fn propose_by_an_unknown_rule()
    ensures { report_of session (pennies (codes "2") ++ text (codes "propose 1 4 foo" ∷ [])) ≡ text (codes "refused 21 BadWord 4" ∷ []) }
{}

/// The rule is looked at before the weights.
pub fn propose_by_an_unknown_rule_with_a_weight_that_is_no_number()
    ensures { report_of session (pennies (codes "2") ++ text (codes "propose 1 4 foo x" ∷ [])) ≡ text (codes "refused 21 BadWord 4" ∷ []) }
{}

/// The weights are numbers.
pub fn propose_a_weight_that_is_no_number()
    ensures { report_of session (pennies (codes "2") ++ text (codes "propose 1 0 cfrd 1 x" ∷ [])) ≡ text (codes "refused 21 BadNumber 6" ∷ []) }
{}

/// There is nothing to judge a proposal by before a blueprint.
pub fn propose_too_early()
    ensures { report_of session (pennies (codes "2") ++ text (codes "propose 1 0 cfrd 1 1" ∷ [])) ≡ text (codes "refused 21 NoBlueprint" ∷ []) }
{}

/// Nor is there anything to expect.
pub fn expect_too_early()
    ensures { report_of session (pennies (codes "2") ++ text (codes "expect" ∷ [])) ≡ text (codes "refused 21 NoBlueprint" ∷ []) }
{}

/// Nor anything to show, whatever the seat.
pub fn show_too_early()
    ensures { report_of session (pennies (codes "2") ++ text (codes "show 3" ∷ [])) ≡ text (codes "refused 21 NoBlueprint" ∷ []) }
{}

/// That there is a blueprint is looked at before the weights of another.
pub fn blueprint_twice()
    ensures { report_of session (pennies (codes "2") ++ text (codes "blueprint uniform" ∷ codes "blueprint given 1" ∷ []))
        ≡ text (codes "blueprint 0/1 0/1" ∷ codes "refused 22 SecondBlueprint" ∷ []) }
{}

/// Nothing is answered behind a refusal.
pub fn blueprint_after_a_wrong_one()
    ensures { report_of session (pennies (codes "2") ++ text (codes "blueprint given 1" ∷ codes "blueprint uniform" ∷ []))
        ≡ text (codes "refused 21 WrongCount 4 1" ∷ []) }
{}
