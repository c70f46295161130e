//! A terminal history with its node.

/// The numbers of a terminal history and of its node.
#[derive(Clone, Copy, Debug, PartialEq, Eq)]
pub struct End {
    pub node: u32,
    pub history: u32,
}
