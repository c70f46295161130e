//! Laws of the texts of a game.
ghost use Rattle.lab_defs_text.specs.Laws.{CanonicalLaw, TextLaw, OneGameLaw, NoGameLaw, ReadBackLaw, SpellingLaw, LowestLaw};

/// The canonical text of each game within the limits is one of its texts.
pub fn canonical_texts()
    ensures { CanonicalLaw }
{}

/// Bytes are read to a game exactly where they are a text of that game.
pub fn texts_are_read()
    ensures { TextLaw }
{}

/// Bytes are a text of one game at most.
pub fn one_game()
    ensures { OneGameLaw }
{}

/// Bytes have a fault exactly where they are a text of no game.
pub fn no_game()
    ensures { NoGameLaw }
{}

/// The canonical text of each game within the limits is read back to it.
pub fn canonical_texts_are_read()
    ensures { ReadBackLaw }
{}

/// A number has one spelling.
pub fn one_spelling()
    ensures { SpellingLaw }
{}

/// A fraction in lowest terms is the same fraction, and its terms have no common divisor.
pub fn lowest_terms()
    ensures { LowestLaw }
{}
