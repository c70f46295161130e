//! Games read from a source and played to their histories, with the refusals of all that may be wrong with them.
#![tactic(auto)]

mod ending;
mod game_faults;
mod game_part;
mod pieces;
mod playable;
mod refusals;
mod stop;
mod text_faults;

pub use ending::check_end;
pub use game_faults::{refused_recall, refused_unfolding};
pub use game_part::GamePart;
pub use playable::{Playable, played_game};
pub use refusals::{Rejection, refused, refused_line, refused_read, refused_with, scale_word};
pub use stop::Stop;
pub use text_faults::game_of;
