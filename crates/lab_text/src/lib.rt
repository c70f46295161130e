//! Game texts: a game written as its canonical text, and read from any of its texts.
#![tactic(auto)]

#[cfg(test)]
mod cases;
mod draft;
mod draft_steps;
mod fault;
mod head_lines;
mod keywords;
mod line_fault;
mod line_kind;
mod line_words;
mod lines;
mod next_line;
mod place_lines;
mod places;
mod read;
mod row_lines;
mod text_lines;
mod write;

pub use fault::TextFault;
pub use line_fault::LineFault;
pub use line_words::{all_words, only, whole_in};
pub use lines::push_line;
pub use read::read_game;
pub use write::{NoMemory, write_game, write_game_over};
