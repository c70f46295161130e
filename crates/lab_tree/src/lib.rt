//! The public tree of a game: its nodes, the information sets of each seat, subgames, the ways to them, and rows.
#![tactic(auto)]

mod behind;
mod decisions;
mod end;
mod ends;
mod first_nodes;
mod first_sets;
mod forms;
mod info;
mod inner;
pub mod laws;
mod node_key;
mod node_parts;
mod nodes;
mod numbered_sets;
mod ordered;
mod path_walk;
mod paths;
mod places;
mod row_infos;
mod rows;
mod set_key;
mod set_parts;
mod set_starts;
mod sets;
mod starts;
mod subgame;
mod subgame_row;
mod tree;
mod walk;

pub use info::{Follow, NodeId, PathItem, RowId, RowInfo, SetInfo};
pub use path_walk::PathWalk;
pub use tree::{NoMemory, Tree};
