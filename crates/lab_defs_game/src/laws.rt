//! Laws of histories, nodes, sets, spans and paths.

ghost use Rattle.lab_defs_game.specs.Laws.{
  HistoryLaw,
  HistoryOrderLaw,
  HistoryCountLaw,
  TooManyLaw,
  HorizonLaw,
  SizePassedLaw,
  AcceptedLaw,
  SetLaw,
  SetHistoryLaw,
  NodeLaw,
  NodeHistoryLaw,
  SetNodeLaw,
  SpanLaw,
  NodeSetLaw,
  NodeSpanLaw,
  ParentLaw,
  FirstSetLaw,
  AlongLaw,
  PathParentLaw,
  FollowerLaw,
  FollowLaw,
  FirstItemLaw,
  NodeEndLaw,
  RecallLaw,
  LegalDiffersLaw,
  ForgottenLaw,
  DepthLaw,
  BeginsLaw,
  InsideLaw,
  UnitLaw,
  ChanceLaw,
  SetRowLaw,
  RootLaw,
  NumberLaw,
  ConsecutiveLaw,
};

/// What the histories of a game are, and in which order they stand.
pub fn histories()
    ensures legal { HistoryLaw }
    ensures order { HistoryOrderLaw }
{}

/// How many histories there are up to a depth.
pub fn depths()
    ensures { HistoryCountLaw }
{}

/// When a game is unfolded, and for which reason it is not.
pub fn unfolding()
    ensures too_many { TooManyLaw }
    ensures horizon { HorizonLaw }
    ensures size { SizePassedLaw }
    ensures accepted { AcceptedLaw }
{}

/// The unit of a step is the least common multiple of the totals of its rows, and no chance is above the scale.
pub fn chances()
    ensures units { UnitLaw }
    ensures within { ChanceLaw }
{}

/// Each history that is not terminal is in one set of each seat, and each set has one; in an accepted game each set has a row.
pub fn sets()
    ensures one { SetLaw }
    ensures some { SetHistoryLaw }
    ensures rows { SetRowLaw }
{}

/// Each history is at one node, and each node has one; the histories of a set share theirs.
pub fn nodes()
    ensures one { NodeLaw }
    ensures some { NodeHistoryLaw }
    ensures shared { SetNodeLaw }
    ensures depth { DepthLaw }
    ensures ends { NodeEndLaw }
{}

/// The sets and the nodes of a subgame have consecutive numbers, those of its node first.
pub fn spans()
    ensures inside { SpanLaw }
    ensures first { NodeSetLaw }
    ensures nodes { NodeSpanLaw }
    ensures begins { BeginsLaw }
    ensures parents { InsideLaw }
    ensures roots { RootLaw }
    ensures numbers { NumberLaw }
    ensures consecutive { ConsecutiveLaw }
{}

/// The set that a set follows.
pub fn parents()
    ensures before { ParentLaw }
    ensures first { FirstSetLaw }
    ensures along { AlongLaw }
{}

/// The sets on the way to a node.
pub fn paths()
    ensures parents { PathParentLaw }
    ensures places { FollowerLaw }
    ensures follows { FollowLaw }
    ensures first { FirstItemLaw }
{}

/// When a game has perfect recall, and for which reason it has not.
pub fn recall()
    ensures perfect { RecallLaw }
    ensures differs { LegalDiffersLaw }
    ensures forgotten { ForgottenLaw }
{}
