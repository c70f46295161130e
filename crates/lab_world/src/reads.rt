//! How a game is read: the worlds and ends by their numbers, and the actions and rows of a world.
ghost use Rattle.std.specs.Prelude.{
  ◌≡◌,
  ◌⊎◌,
  ◌<◌,
  ◌+◌,
  ◌*◌,
  ◌==◌,
  true,
  false,
  length,
  if◌then◌else◌,
  IfSome,
  IfNone,
};
ghost use Rattle.lab_defs_text.specs.Games.{a_world};
ghost use Rattle.lab_defs_text.specs.Texts.{place_at, is_world};
ghost use Rattle.lab_defs_game.specs.Histories.{payoff_at};
ghost use Rattle.lab_world.specs.Games.{game_model};
ghost use Rattle.lab_world.specs.Models.{world_model};
ghost use Rattle.lab_world.specs.Filled.{is_row, row_at, ids_fit, IsFilled};

use super::game::Game;
use super::place::{ActionId, Place, Row, World, WorldId};

impl Game {
    /// The world with this number, if it is one.
    pub fn world(&self, id: WorldId) -> Option<&World>
        ensures some { IfSome result (λ w. place_at (game_model self.now) id.0
            ≡ a_world (world_model self.now.actions w.now)) }
        ensures filled { IfSome result (λ w. IsFilled w.now) }
        ensures ids { IfSome result (λ w. ids_fit (length self.now.actions) w.now ≡ true) }
        ensures none { IfNone result (is_world (place_at (game_model self.now) id.0) ≡ false) }
    {
        match self.places.as_slice().get(id.0 as usize) {
            Some(Place::World(world)) => Some(world),
            _ => None,
        }
    }

    /// What the end with this number pays seat 1; 0 where it is the number of no end.
    pub fn payoff(&self, id: WorldId) -> i32
        ensures { result ≡ payoff_at (place_at (game_model self.now) id.0) }
    {
        match self.places.as_slice().get(id.0 as usize) {
            Some(Place::End(payoff)) => *payoff,
            _ => 0,
        }
    }
}

impl World {
    /// The actions of a seat, 1 or 2.
    pub fn actions(&self, seat: u32) -> &[ActionId]
        requires { (seat ≡ 1) ⊎ (seat ≡ 2) }
        ensures { result.now ≡ (if seat == 1 then self.now.one else self.now.two) }
    {
        if seat == 1 {
            self.one.as_slice()
        } else {
            self.two.as_slice()
        }
    }

    /// The row of the actions with these places.
    pub fn row(&self, place1: usize, place2: usize) -> &Row
        requires filled { IsFilled self.now }
        requires first { place1 < length self.now.one }
        requires second { place2 < length self.now.two }
        ensures row { result.now ≡ row_at self.now (place1 * length self.now.two + place2) }
        ensures filled { is_row result.now ≡ true }
    {
        &self.rows.as_slice()[place1 * self.two.len() + place2]
    }
}
