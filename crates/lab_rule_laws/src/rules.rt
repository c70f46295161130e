//! What best replies earn, what each rule keeps, and what gadgets are worth.

ghost use Rattle.lab_rule_laws.specs.Rules.{FirstGreatestLaw, BestRepliesLaw, AllowanceLaw, RuleLaw, GadgetValueLaw, GameGadgetValueLaw, SubgameValueLaw};

/// Best replies are found from the last set back: the values that are backed up are the best ones, and one pure
/// reply, the first greatest action at each set, earns all of them.
pub fn best_replies()
    ensures first { FirstGreatestLaw }
    ensures best { BestRepliesLaw }
{}

/// Each rule keeps the bounds: where the values at a node are within its limits, the value that is backed up along
/// the path is at most the bound at the first set.
pub fn rule_laws()
    ensures allowances { AllowanceLaw }
    ensures keeps { RuleLaw }
{}

/// A gadget adds to the subgame what its rule asks: at each further set the greater of the limit and of what the
/// subgame is worth there, or at its one further set the greatest excess over the limits.
pub fn gadget_values()
    ensures forms { GadgetValueLaw }
    ensures games { GameGadgetValueLaw }
{}

/// What the opponent can earn in a subgame against weights there is what it can earn at these sets in the whole game,
/// against the table that has the weights in it.
pub fn subgame_values()
    ensures { SubgameValueLaw }
{}
