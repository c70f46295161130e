//! Kinds of lines.

/// The kind of a line, and the start of a text.
#[derive(Clone, Copy, Debug, PartialEq, Eq)]
pub enum LineKind {
    Start,
    Head,
    Grid,
    Horizon,
    Memory,
    Token,
    World,
    One,
    Two,
    Row,
    To,
    End,
    Root,
    Done,
}
