//! The text of a whole game.
ghost use Rattle.std.specs.Prelude.{◌≡◌, ◌++◌, ◌∷◌, [], IfOk, OnOk, OnErr};
ghost use Rattle.lab_defs_text.specs.Numbers.{numeral};
ghost use Rattle.lab_defs_text.specs.Lines.{joined, recall_word, text_of, head_line, grid_line, horizon_line, memory_line, root_line, done_line};
ghost use Rattle.lab_defs_text.specs.Texts.{name_of, token_lines, canonical};
ghost use Rattle.lab_world.specs.Models.{recall_model};
ghost use Rattle.lab_world.specs.Games.{game_model};

use crate::lines::{name_with, push_line};
use crate::places::push_places;
use itoa::Buffer;
use lab_lex::NameTable;
use lab_world::{Game, Recall};
use std::alloc::{AllocError, Global};

/// No memory was left.
#[derive(Clone, Copy, Debug, PartialEq, Eq)]
pub struct NoMemory;

/// The canonical text of a game: its lines in the order of the game, the rows of each world in order of the first
/// action's place, then the second's.
pub fn write_game(alloc: Global, game: &Game) -> Result<Vec<u8>, NoMemory>
    ensures { IfOk result (λ text. text.items ≡ canonical (game_model game.now)) }
{
    let mut text = Vec::new(alloc);
    write_game_over(&mut text, game)?;
    Ok(text)
}

/// Likewise, in place of what is in a vector, whose room is used again. Where no memory is left, the vector is empty.
pub fn write_game_over(text: &mut Vec<u8>, game: &Game) -> Result<(), NoMemory>
    ensures written { OnOk result (text.new.items ≡ canonical (game_model game.now)) }
    ensures emptied { OnErr result (text.new.items ≡ []) }
{
    text.clear();
    let Ok(()) = push_game(text, game) else {
        text.clear();
        return Err(NoMemory);
    };
    Ok(())
}

// Adds the text of a game.
fn push_game(text: &mut Vec<u8>, game: &Game) -> Result<(), AllocError>
    ensures { OnOk result (text.new.items ≡ text.old.items ++ canonical (game_model game.now)) }
{
    push_head(text, game.grid, game.horizon, game.recall)?;
    push_tokens(text, &game.tokens)?;
    push_places(text, game)?;
    push_line(text, b"root", &[name_with(&game.names, game.root.0)])?;
    push_line(text, b"done", &[])
}

// Adds the lines before the tokens.
fn push_head(text: &mut Vec<u8>, grid: u32, horizon: u32, recall: Recall) -> Result<(), AllocError>
    ensures { OnOk result (text.new.items ≡ text.old.items
        ++ text_of (head_line ∷ grid_line grid ∷ horizon_line horizon ∷ memory_line (recall_model recall) ∷ [])) }
{
    push_line(text, b"fosg", &[b"1"])?;
    push_number(text, b"grid", grid)?;
    push_number(text, b"horizon", horizon)?;
    push_line(text, b"memory", &[memory_word(recall)])
}

// The word of a kind of memory.
fn memory_word(recall: Recall) -> &'static [u8]
    ensures { result.now ≡ recall_word (recall_model recall) }
{
    match recall {
        Recall::Acts => b"acts",
        Recall::Seen => b"seen",
    }
}

// Adds a line of a keyword and a number.
fn push_number(text: &mut Vec<u8>, keyword: &[u8], number: u32) -> Result<(), AllocError>
    ensures { OnOk result (text.new.items ≡ text.old.items
        ++ (joined (keyword.now ∷ numeral number ∷ []) ++ 10 ∷ [])) }
{
    let mut digits = Buffer::new();
    push_line(text, keyword, &[digits.format(number).as_bytes()])
}

// Adds the lines of the tokens.
fn push_tokens(text: &mut Vec<u8>, tokens: &NameTable) -> Result<(), AllocError>
    ensures { OnOk result (text.new.items ≡ text.old.items ++ text_of (token_lines tokens.now)) }
{
    for number in 0..tokens.count() {
        push_line(text, b"token", &[name_with(tokens, number)])?;
    }
    Ok(())
}
