//! A game made of its parts.
ghost use Rattle.std.specs.Prelude.{◌≡◌, true, length};
ghost use Rattle.lab_defs_text.specs.Agreement.{Agrees};
ghost use Rattle.lab_defs_text.specs.Assembly.{assembled};
ghost use Rattle.lab_world.specs.Drafts.{draft_of, named_draft_of, may_assemble, assemble_fault};
ghost use Rattle.lab_world.specs.Games.{game_model};

use super::game::Game;
use super::named::named_places;
use super::parts::{AssembleFault, Parts};
use super::place::WorldId;
use super::rooted::rooted_places;
use super::stages::{NumberedPlaces, RootedPlaces};
use lab_seq::Seq;
use std::alloc::Global;

impl Game {
    /// Makes a game of its parts: names become numbers, and the rows of each world stand in the order of its joint actions.
    /// Parts with no token or no place are answered as all others are: they make no game.
    /// There are fewer than 2^32 actions, rows and outcomes in all, as in each text of fewer bytes; so `Memory` says that memory
    /// was short, and nothing else.
    pub fn assemble(alloc: Global, parts: Parts) -> Result<Game, AssembleFault>
        requires named { length parts.names ≡ length parts.places }
        requires fit { may_assemble (draft_of parts) ≡ true }
        ensures { Agrees game_model assemble_fault result (assembled (draft_of parts)) }
    {
        let Parts {
            grid,
            horizon,
            recall,
            tokens,
            names,
            places,
            root,
            root_line,
        } = parts;
        let places = named_places(alloc, places.as_slice())?;
        Game::assemble_named(
            alloc,
            Parts {
                grid,
                horizon,
                recall,
                tokens,
                names,
                places: Seq::from_vec(places),
                root: root.as_str(),
                root_line,
            },
        )
    }

    /// Likewise of parts whose names stand in a text, so that no name is copied but into the game.
    pub fn assemble_named(alloc: Global, parts: Parts<&str>) -> Result<Game, AssembleFault>
        requires named { length parts.names ≡ length parts.places }
        requires fit { may_assemble (named_draft_of parts) ≡ true }
        ensures { Agrees game_model assemble_fault result (assembled (named_draft_of parts.entry)) }
    {
        let Parts {
            grid,
            horizon,
            recall,
            tokens,
            names,
            places,
            root,
            root_line,
        } = parts;
        let RootedPlaces { numbered, root } = rooted_places(
            alloc,
            &names,
            &tokens,
            places.into_vec(),
            root_line,
            root,
        )?;
        let NumberedPlaces { actions, places } = numbered;
        Ok(Game {
            grid,
            horizon,
            recall,
            tokens,
            names,
            actions,
            places: Seq::from_vec(places),
            root: WorldId(root),
        })
    }
}
