//! What is counted of a game.
ghost use Rattle.std.specs.Prelude.{◌≡◌, ◌<◌, ◌∷◌, ◌++◌, [], length, IfOk};
ghost use Rattle.lab_defs_game.specs.Counts.{counts_of};
ghost use Rattle.lab_defs_report.specs.GameModes.{counts_line as line_of_counts};
ghost use Rattle.lab_world.specs.Games.{game_model};
ghost use Rattle.lab_cli.specs.Counted.{counts_model, counts_text, tree_counts};

use itoa::Buffer;
use lab_input::{Playable, scale_word};
use lab_lines::number_word;
use lab_text::push_line;
use lab_tree::{NoMemory, NodeId, Tree};
use std::alloc::{AllocError, Global};

/// The numbers of histories, nodes and information sets of each seat, the most decisions of each seat on one history, and the scale of chances.
#[derive(Clone, Copy, Debug, PartialEq, Eq)]
pub struct Counts {
    pub histories: u32,
    pub nodes: u32,
    pub sets1: u32,
    pub sets2: u32,
    pub most1: u32,
    pub most2: u32,
    pub scale: u128,
}

/// The line that tells what is counted of a game.
pub fn line_of_game(alloc: Global, played: Playable) -> Result<Vec<u8>, AllocError>
    ensures { IfOk result (λ line. line.items ≡ line_of_counts (game_model played.game)) }
{
    let counts = counted(alloc, played)?;
    counts_line(alloc, &counts)
}

// What is counted of a game.
fn counted(alloc: Global, played: Playable) -> Result<Counts, AllocError>
    ensures { IfOk result (λ c. counts_model c ≡ counts_of (game_model played.game)) }
{
    let Playable { game, histories } = played;
    match Tree::build(alloc, &game, histories) {
        Ok(tree) => Ok(counts_of_tree(&tree)),
        Err(NoMemory) => Err(AllocError),
    }
}

// What is counted of a tree: all sets of a seat are inside the subgame of the first node.
fn counts_of_tree(tree: &Tree) -> Counts
    requires { 0 < length tree.now.nodes }
    ensures { counts_model result ≡ tree_counts tree.now }
{
    let root = NodeId(0);
    let scale = tree.histories().scale();
    Counts {
        histories: tree.histories().count(),
        nodes: tree.node_count(),
        sets1: tree.span(1, root).to,
        sets2: tree.span(2, root).to,
        most1: scale.most1,
        most2: scale.most2,
        scale: scale.k,
    }
}

// The line that tells counts.
fn counts_line(alloc: Global, counts: &Counts) -> Result<Vec<u8>, AllocError>
    ensures { IfOk result (λ line. line.items ≡ counts_text counts.now) }
{
    let mut histories = Buffer::new();
    let mut nodes = Buffer::new();
    let mut sets1 = Buffer::new();
    let mut sets2 = Buffer::new();
    let mut most1 = Buffer::new();
    let mut most2 = Buffer::new();
    let mut scale = Buffer::new();
    let words = [
        b"histories".as_slice(),
        number_word(counts.histories, &mut histories),
        b"nodes",
        number_word(counts.nodes, &mut nodes),
        b"sets",
        number_word(counts.sets1, &mut sets1),
        number_word(counts.sets2, &mut sets2),
        b"most",
        number_word(counts.most1, &mut most1),
        number_word(counts.most2, &mut most2),
        b"scale",
        scale_word(counts.scale, &mut scale),
    ];
    let mut line = Vec::new(alloc);
    push_line(&mut line, b"game", words.as_slice())?;
    Ok(line)
}
