//! Nodes, information sets and rows, as the tree reports them.

use lab_form::SetId;
use lab_unfold::HistoryId;
use lab_units::Worth;

/// The number of a node, a public state: nodes are numbered from 0 by their public lists, a prefix before what it begins.
#[derive(Clone, Copy, Debug, PartialEq, Eq, PartialOrd, Ord)]
pub struct NodeId(pub u32);

/// The number of a row, a terminal history: rows are numbered from 0 by their nodes, and then as the histories are.
#[derive(Clone, Copy, Debug, PartialEq, Eq, PartialOrd, Ord)]
pub struct RowId(pub u32);

/// An information set of a seat.
#[derive(Clone, Copy, Debug, PartialEq, Eq)]
pub struct SetInfo {
    /// Sets are numbered from 0 by public list, and then by what the seat has seen.
    pub id: SetId,
    pub node: NodeId,
    /// The set and the action there that this set follows; none at the root.
    pub parent: Option<(SetId, u32)>,
    /// How many actions the seat has; a set with one is a pass.
    pub actions: u32,
    /// The place of its first weight among those of the seat's deciding sets.
    pub first_weight: u32,
}

/// A terminal history.
#[derive(Clone, Copy, Debug, PartialEq, Eq)]
pub struct RowInfo {
    pub id: RowId,
    pub history: HistoryId,
    /// Its chance, over the scale, times what it pays seat 1.
    pub worth: Worth,
    /// The last set of each seat, with the action there.
    pub last: [(SetId, u32); 2],
}

/// How an item of a path follows an earlier one.
#[derive(Clone, Copy, Debug, PartialEq, Eq)]
pub struct Follow {
    /// The item of the path that it follows.
    pub from: u32,
    /// The action by which it does.
    pub action: u32,
    /// How many items that follow the same item by the same action are before it.
    pub place: u32,
    /// How many there are of these in all.
    pub count: u32,
}

/// An item of a path: an information set at a node from the root to another.
#[derive(Clone, Copy, Debug, PartialEq, Eq)]
pub struct PathItem {
    pub set: SetId,
    /// None at the root.
    pub follows: Option<Follow>,
}
