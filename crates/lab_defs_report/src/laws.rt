//! Laws of what the program writes, and of draws.

ghost use Rattle.lab_defs_report.specs.Laws.{FrontLaw, RefusalLaw, DrawLaw};

/// What is written for the first bytes of an input is a prefix of what is written for more of them.
pub fn fronts()
    ensures { FrontLaw }
{}

/// A refusal that the first bytes of an input cause comes whatever follows them, and is the last line that is written.
pub fn refusals()
    ensures { RefusalLaw }
{}

/// A word draws the first item whose running sum passes the word's part of all weights.
pub fn draws()
    ensures { DrawLaw }
{}
