//! What a rule keeps, by all that it is told of a subgame.

ghost use Rattle.lab_rule_laws.specs.ViewLaws.{ViewAllowanceLaw, ViewLaw, ViewGadgetLaw, GameViewLaw, ViewRuleLaw};

/// Each rule keeps the bounds, whatever the path and its steps; no allowance is too large, and no gadget has more than its room.
pub fn views()
    ensures allowances { ViewAllowanceLaw }
    ensures keeps { ViewLaw }
    ensures gadgets { ViewGadgetLaw }
{}

/// A game gives each subgame where the keeper decides a view, and what a rule makes of it is what it makes of the game.
pub fn game_views()
    ensures there { GameViewLaw }
    ensures rules { ViewRuleLaw }
{}
