//! The public lists of the first histories at nodes.

ghost use Rattle.std.specs.Prelude.{◌≡◌, true, length, IfOk};
ghost use Rattle.lab_defs_game.specs.Histories as model;
ghost use Rattle.lab_defs_game.specs.Sets.{public_list};
ghost use Rattle.lab_world.specs.Games.{game_model};
ghost use Rattle.lab_unfold.specs.Values.{unfolded};
ghost use Rattle.lab_tree.specs.Keyed.{keyed};

use super::behind::public_along;
use super::node_key::NodeKey;
use lab_unfold::{Histories, HistoryId};
use lab_world::Game;
use std::alloc::{AllocError, Global};

/// The public list and the number of each history that is the first with its public list.
pub fn node_keys(
    alloc: Global,
    game: &Game,
    histories: &Histories,
    firsts: &[u32],
) -> Result<Vec<(NodeKey, u32)>, AllocError>
    requires unfolded { histories.now ≡ unfolded (game_model game.now) }
    requires count { length firsts.now ≡ length (model.histories (game_model game.now)) }
    ensures { IfOk result (λ v. v.items ≡ keyed (λ h. true) (public_list (game_model game.now))
        (model.histories (game_model game.now)) firsts.now (length (model.histories (game_model game.now)))) }
{
    let mut keys = Vec::new(alloc);
    for number in 0..histories.count() {
        if firsts[number as usize] == number {
            let tokens = public_along(alloc, game, histories, HistoryId(number))?;
            keys.push((NodeKey::new(tokens), number))?;
        }
    }
    Ok(keys)
}
