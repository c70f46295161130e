//! Laws of trees.

ghost use Rattle.lab_tree.specs.TreeForms.{FormPartsLaw, FormLaw};
ghost use Rattle.lab_tree.specs.TreeSubgames.{SubgameFormLaw};
ghost use Rattle.lab_tree.specs.WayLaws.{WayLaw, AtNodesLaw, GroupedLaw, PathsLaw};

/// The sets and rows of a game's tree make a form, and this is the game's, its rows by their nodes.
pub fn forms()
    ensures parts { FormPartsLaw }
    ensures form { FormLaw }
{}

/// The form of the subgame of a node that a tree writes is that of the game.
pub fn subgames()
    ensures { SubgameFormLaw }
{}

/// Nodes follow earlier ones, sets are where those of their nodes begin, those that follow the same step at the same node are side by side, and the items on ways are those of paths.
pub fn ways()
    ensures ways { WayLaw }
    ensures nodes { AtNodesLaw }
    ensures grouped { GroupedLaw }
    ensures paths { PathsLaw }
{}
