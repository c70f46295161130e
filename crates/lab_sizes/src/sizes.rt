//! How large the numbers of a session are.

ghost use Rattle.lab_sizes.specs.Sizes.{RangeLaw, TightBoundsLaw, BoundLaw, LimitLaw, UnitSizeLaw, RowLaw, SmallLaw, TermLaw, SumLaw, RegretSizeLaw, RoundSizeLaw, ShareSizeLaw};

/// No best-response value against a table passes the limit of its bounds, so its tight bounds may be kept beside it.
pub fn ranges()
    ensures values { RangeLaw }
    ensures tight { TightBoundsLaw }
{}

/// Bounds that hold and are within the limit at the first set, and what actions back up by them, are at least the least
/// best-response value that there may be and at most twice the greatest.
pub fn bounds()
    ensures { BoundLaw }
{}

/// So is each limit on the way to a node, whatever the rule.
pub fn limits()
    ensures { LimitLaw }
{}

/// The units of bounds and of expectations are at most 2^64.
pub fn units()
    ensures { UnitSizeLaw }
{}

/// No row comes to more than 2^64, and none of a gadget to more than 2^77.
pub fn small_rows()
    ensures { RowLaw }
{}

/// The form of a game, of a subgame and of a gadget is small.
pub fn small_forms()
    ensures { SmallLaw }
{}

/// In a small form no term of a row passes 2^77.
pub fn small_terms()
    ensures { TermLaw }
{}

/// In a small form no expectation and no value passes 2^94.
pub fn small_sums()
    ensures { SumLaw }
{}

/// In a small form no regret passes 2^107, and no sum for the averages 2^89.
pub fn small_regrets()
    ensures { RegretSizeLaw }
{}

/// So it is of all rounds on an accepted game, and on the gadget for a node of it.
pub fn small_rounds()
    ensures { RoundSizeLaw }
{}

/// The regrets of a set are rounded within 2^123.
pub fn small_shares()
    ensures { ShareSizeLaw }
{}
