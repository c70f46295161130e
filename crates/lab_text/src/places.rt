//! Places: worlds with their rows, and ends.
ghost use Rattle.std.specs.Prelude.{◌≡◌, ◌<◌, ◌++◌, ◌∷◌, [], length, map, IsTrue, OnOk};
ghost use Rattle.std.specs.List.{list_all, range_with_len};
ghost use Rattle.lab_defs_text.specs.Lines.{text_of, row_line, end_line};
ghost use Rattle.lab_defs_text.specs.Texts.{name_of, outcome_lines, row_lines, place_lines, outcome_ok, row_order};
ghost use Rattle.lab_world.specs.declared.place.Place.TheVariants as place;
ghost use Rattle.lab_world.specs.Models.{outcome_model, world_model, place_model};
ghost use Rattle.lab_world.specs.Games.{game_model};
ghost use Rattle.lab_text.specs.Parts.{Fits, place_part, places_part};

use crate::lines::{action_at, name_with, push_actions, push_line};
use itoa::Buffer;
use lab_world::{Game, Outcome, Place, World};
use std::alloc::AllocError;

/// Adds the lines of all places.
pub fn push_places(text: &mut Vec<u8>, game: &Game) -> Result<(), AllocError>
    ensures { OnOk result (text.new.items ≡ text.old.items
        ++ text_of (places_part game.now game.now.names game.now.places)) }
{
    let places = game.places.as_slice();
    for number in 0..game.names.count() {
        push_place(
            text,
            game,
            name_with(&game.names, number),
            &places[number as usize],
        )?;
    }
    Ok(())
}

// Adds the lines of a place.
fn push_place(text: &mut Vec<u8>, game: &Game, name: &[u8], place: &Place) -> Result<(), AllocError>
    requires { Fits game.now place.now }
    ensures { OnOk result (text.new.items ≡ text.old.items
        ++ text_of (place_part game.now name.now place.now)) }
{
    match place {
        Place::World(world) => push_world(text, game, name, world),
        Place::End(payoff) => push_end(text, name, *payoff),
    }
}

// Adds the line of an end.
fn push_end(text: &mut Vec<u8>, name: &[u8], payoff: i32) -> Result<(), AllocError>
    ensures { OnOk result (text.new.items ≡ text.old.items ++ text_of (end_line name.now payoff ∷ [])) }
{
    let mut digits = Buffer::new();
    push_line(text, b"end", &[name, digits.format(payoff).as_bytes()])
}

// Adds the lines of a world.
fn push_world(text: &mut Vec<u8>, game: &Game, name: &[u8], world: &World) -> Result<(), AllocError>
    requires { Fits game.now (place.World world.now) }
    ensures { OnOk result (text.new.items ≡ text.old.items
        ++ text_of (place_part game.now name.now (place.World world.now))) }
{
    push_line(text, b"world", &[name])?;
    push_actions(text, b"one", &game.actions, world.one.as_slice())?;
    push_actions(text, b"two", &game.actions, world.two.as_slice())?;
    push_rows(text, game, world)
}

// Adds the lines of a world's rows.
fn push_rows(text: &mut Vec<u8>, game: &Game, world: &World) -> Result<(), AllocError>
    requires { Fits game.now (place.World world.now) }
    ensures { OnOk result (text.new.items ≡ text.old.items
        ++ text_of (row_lines (game_model game.now) (world_model game.now.actions world.now) (range_with_len 0 (length world.now.rows)))) }
{
    for number in 0..world.rows.len() {
        push_row(text, game, world, number)?;
    }
    Ok(())
}

// Adds the lines of the row with a number.
fn push_row(text: &mut Vec<u8>, game: &Game, world: &World, number: usize) -> Result<(), AllocError>
    requires fits { Fits game.now (place.World world.now) }
    requires number { number < length world.now.rows }
    ensures { OnOk result (text.new.items ≡ text.old.items
        ++ text_of (row_lines (game_model game.now) (world_model game.now.actions world.now) (number ∷ []))) }
{
    let seconds = world.two.len();
    let first = action_at(&game.actions, world.one.as_slice(), number / seconds);
    let second = action_at(&game.actions, world.two.as_slice(), number % seconds);
    push_line(text, b"row", &[first, second])?;
    push_outcomes(
        text,
        game,
        world.rows.as_slice()[number].outcomes.as_slice(),
    )
}

// Adds the lines of outcomes.
fn push_outcomes(text: &mut Vec<u8>, game: &Game, outcomes: &[Outcome]) -> Result<(), AllocError>
    requires { IsTrue (list_all (outcome_ok (game_model game.now)) (map outcome_model outcomes.now)) }
    ensures { OnOk result (text.new.items ≡ text.old.items
        ++ text_of (outcome_lines (game_model game.now) (map outcome_model outcomes.now))) }
{
    for outcome in outcomes {
        push_outcome(text, game, outcome)?;
    }
    Ok(())
}

// Adds the line of an outcome.
fn push_outcome(text: &mut Vec<u8>, game: &Game, outcome: &Outcome) -> Result<(), AllocError>
    requires { IsTrue (outcome_ok (game_model game.now) (outcome_model outcome.now)) }
    ensures { OnOk result (text.new.items ≡ text.old.items
        ++ text_of (outcome_lines (game_model game.now) (outcome_model outcome.now ∷ []))) }
{
    let mut digits = Buffer::new();
    let words = [
        digits.format(outcome.weight).as_bytes(),
        name_with(&game.names, outcome.next.0),
        name_with(&game.tokens, outcome.own1.0),
        name_with(&game.tokens, outcome.own2.0),
        name_with(&game.tokens, outcome.public.0),
    ];
    push_line(text, b"to", &words)
}
