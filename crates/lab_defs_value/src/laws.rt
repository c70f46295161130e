//! Laws of best-response values, bounds and allowances.

ghost use Rattle.lab_defs_value.specs.WholeLaws.{UniformLaw, WholeLaw};
ghost use Rattle.lab_defs_value.specs.GameLaws.{
  GamePaddedLaw,
  DecidesLaw,
  GameExpectationLaw,
  GameGuaranteeLaw,
  GameBestTableLaw,
  GameEarningLaw,
  GameSpliceLaw,
  GameSettledLaw,
};
ghost use Rattle.lab_defs_value.specs.MatchingLaws.{
  RoundedLaw,
  UnitsLaw,
  RoundedTableLaw,
  ZeroSharesLaw,
  GameFormLaw,
  ActionsLaw,
  ValueLaw,
  RegretLaw,
  EarningLaw,
  RegretListsLaw,
  RoundLaw,
  SubgameLaw,
  SubgameFormLaw,
  GadgetLaw,
  GadgetFormLaw,
  GameGadgetLaw,
  AveragesLaw,
  CandidateLaw,
  SolvedLaw,
};
ghost use Rattle.lab_defs_value.specs.Laws.{
  FormTestLaw,
  ChainLaw,
  EvenPartLaw,
  UniqueBestLaw,
  SettleLaw,
  SettledLaw,
  ExpectationLaw,
  GuaranteeLaw,
  WholeIsTableLaw,
  WholeTableLaw,
  BestTableLaw,
  ThroughLaw,
  BackedUpLaw,
  BestResponseLaw,
  HoldsLaw,
  HoldsTestLaw,
  ReachLaw,
  PoolLaw,
  PathOrderLaw,
  PassLaw,
  SpliceLaw,
  StayLaw,
  SafeLaw,
  WorthSizeLaw,
};

/// The uniform table has weights that sum to the grid.
pub fn uniform()
    ensures { UniformLaw }
{}

/// Chances and own weights lose nothing: over the terminal histories of an accepted game they sum
/// to the units in which an expectation is counted.
pub fn whole()
    ensures { WholeLaw }
{}

/// Whether a form is well made, as a seat sees it, can be computed; and by its rows each set follows its parent.
pub fn forms()
    ensures test { FormTestLaw }
    ensures chains { ChainLaw }
{}

/// What a seat expects is what its table earns as a reply, so bounds that hold limit it.
pub fn expectations()
    ensures earned { ExpectationLaw }
    ensures guarantee { GuaranteeLaw }
{}

/// The whole grid on one action at each deciding set is a table, and its seat expects by it what the
/// pure reply earns, times the power of the grid: the best value, where that reply is a best one, as some is.
pub fn whole_tables()
    ensures is_table { WholeIsTableLaw }
    ensures expected { WholeTableLaw }
    ensures best { BestTableLaw }
{}

/// A set has at most one best value: one that no reply exceeds and that a pure reply earns.
pub fn unique_best()
    ensures { UniqueBestLaw }
{}

/// An action backs up the bounds of the sets that follow it directly, each with or without rows, and what the rows are worth
/// that end with it. The best-response values are the numbers that are backed up from the last set to the first.
pub fn backed_up()
    ensures each { ThroughLaw }
    ensures values { BackedUpLaw }
{}

/// A table of bounds may be mended from the last set back: numbers that are best-response values stay, and the others are
/// backed up. So bounds are settled after a splice: found anew inside its subgame and on the path above it, and kept elsewhere.
pub fn settling()
    ensures each { SettleLaw }
    ensures settled { SettledLaw }
    ensures games { GameSettledLaw }
{}

/// The most that pure replies earn is the best value at each set; so there is one.
pub fn best_response_values()
    ensures { BestResponseLaw }
{}

/// Where each bound is at least what each action backs up, no reply earns more than the bounds.
pub fn holding_tables()
    ensures bounds { HoldsLaw }
    ensures test { HoldsTestLaw }
{}

/// By reach the sets on a path share the pools of the steps that they follow, and nothing is left over.
pub fn reach_allowances()
    ensures each { ReachLaw }
    ensures sums { PoolLaw }
    ensures parts { EvenPartLaw }
    ensures paths { PathOrderLaw }
{}

/// Best-response values decide whether a strategy passes, whatever the replies.
pub fn passing()
    ensures { PassLaw }
{}

/// A splice changes the weights of its span alone, and so what replies earn on the rows that come there alone.
pub fn splices()
    ensures weights { SpliceLaw }
    ensures earnings { StayLaw }
    ensures games { GameSpliceLaw }
{}

/// A splice that passes at the sets of a node leaves the bound of the whole strategy standing.
pub fn safe_splices()
    ensures { SafeLaw }
{}

/// How large own weights, earnings and best-response values are at most.
pub fn sizes()
    ensures { WorthSizeLaw }
{}

/// Shares are rounded to weights that sum to the grid, whatever they are; the units that are left go to the first.
pub fn rounding()
    ensures weights { RoundedLaw }
    ensures units { UnitsLaw }
    ensures tables { RoundedTableLaw }
    ensures zeros { ZeroSharesLaw }
{}

/// The value of a set is the sum of its actions' values by their weights, so the regrets of a round
/// sum to zero by the weights of that round.
pub fn regrets()
    ensures there { ActionsLaw }
    ensures values { ValueLaw }
    ensures regrets { RegretLaw }
    ensures earnings { EarningLaw }
    ensures tallies { RegretListsLaw }
    ensures rounds { RoundLaw }
{}

/// The sets and rows of an accepted game are a form for both seats, each row begins at the first set of either, and lacks
/// as many decisions as it has fewer than the most; where a seat decides in a subgame both have a set at its node.
pub fn games()
    ensures forms { GameFormLaw }
    ensures padded { GamePaddedLaw }
    ensures roots { DecidesLaw }
{}

/// In an accepted game what a seat expects is what its table earns as a reply, bounds that hold limit it, and some table
/// earns the best-response value; counterfactual values are what a table earns at a set.
pub fn game_values()
    ensures earned { GameExpectationLaw }
    ensures guarantee { GameGuaranteeLaw }
    ensures best { GameBestTableLaw }
    ensures sets { GameEarningLaw }
{}

/// A row of a subgame is worth by weights inside what the whole row is worth by the table with these weights in it;
/// the subgames of an accepted game are forms for both seats.
pub fn subgames()
    ensures worths { SubgameLaw }
    ensures forms { SubgameFormLaw }
{}

/// A gadget leaves the keeper's sets, paths and pads as they are in the subgame, and puts the opponent's further sets first;
/// it is a form where the subgame is one, and so in an accepted game.
pub fn gadgets()
    ensures keeps { GadgetLaw }
    ensures forms { GadgetFormLaw }
    ensures games { GameGadgetLaw }
{}

/// What regret matching finds are tables, also on a gadget, after any number of rounds.
pub fn averages()
    ensures averages { AveragesLaw }
    ensures candidates { CandidateLaw }
    ensures solved { SolvedLaw }
{}
