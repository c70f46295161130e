//! Texts of games, for tests: small ones, Kuhn and Leduc poker, and liar's dice.
#![tactic(auto)]

mod dice;
mod kuhn;
mod leduc;
mod texts;
mod turns;

pub use dice::dice_text;
pub use kuhn::kuhn_text;
pub use leduc::leduc_text;
pub use texts::{
    CHAIN, DIFFERS, DOUBLING, FORGETS, FORK, GOOFSPIEL_2, LOOP, ONE_BY_THREE, PENNIES_2,
    PENNIES_2_EXCHANGED, PENNIES_2_SHORT, THREE_BY_TWO, with_line,
};
