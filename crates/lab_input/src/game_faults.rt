//! The refusals of games that are not unfolded, or have no perfect recall.
ghost use Rattle.std.specs.Prelude.{◌≡◌, ◌∷◌, []};
ghost use Rattle.lab_defs_text.specs.Numbers.{numeral};
ghost use Rattle.lab_defs_text.specs.Texts.{name_of};
ghost use Rattle.lab_defs_report.specs.Refusals.{refused as refusal_of, scale_word as word_of_scale};
ghost use Rattle.lab_world.specs.Games.{game_model};
ghost use Rattle.lab_unfold.specs.Faults as unfolds;
ghost use Rattle.lab_recall.specs.Faults as recall;
ghost use Rattle.lab_session.specs.Sessions.{AreWorlds};
ghost use Rattle.lab_input.specs.Stops.{IsRefusal, RefusesUnfolding, RefusesRecall};
ghost use Rattle.lab_lines.specs.Codes.{code_name};
ghost use lib.Chars.{codes};

use crate::refusals::{refused_number, refused_with, scale_word};
use crate::stop::Stop;
use itoa::Buffer;
use lab_lines::{Code, number_word};
use lab_recall::RecallFault;
use lab_unfold::UnfoldFault;
use lab_world::{Game, WorldId};
use std::alloc::Global;

/// The refusal of a game that is not unfolded, at a line.
pub fn refused_unfolding(alloc: Global, game: &Game, line: u32, fault: UnfoldFault) -> Stop
    ensures { RefusesUnfolding (game_model game.now) line (unfolds.fault_in fault) result }
{
    match fault {
        UnfoldFault::TooManyHistories { depth } => {
            refused_number(alloc, line, Code::TooManyHistories, depth)
        }
        UnfoldFault::HorizonPassed { history_world } => {
            refused_with(
                alloc,
                line,
                Code::HorizonPassed,
                &[name(game, history_world)],
            )
        }
        UnfoldFault::SizePassed {
            top,
            k,
            most1,
            most2,
        } => refused_size(alloc, line, top, k, most1, most2),
        UnfoldFault::Memory => Stop::Memory,
    }
}

// The refusal of numbers that are too great.
fn refused_size(alloc: Global, line: u32, top: u32, k: Option<u128>, most1: u32, most2: u32) -> Stop
    ensures { IsRefusal (refusal_of line (codes "SizePassed") (numeral top ∷ word_of_scale k ∷ numeral most1 ∷ numeral most2 ∷ [])) result }
{
    let mut digits = Buffer::new();
    let mut scale = Buffer::new();
    let mut digits1 = Buffer::new();
    let mut digits2 = Buffer::new();
    let top = number_word(top, &mut digits);
    let scale = told_word(k, &mut scale);
    let most1 = number_word(most1, &mut digits1);
    let most2 = number_word(most2, &mut digits2);
    refused_with(alloc, line, Code::SizePassed, &[top, scale, most1, most2])
}

// A scale as a word: `over` where it is past its limit.
fn told_word<'a>(k: Option<u128>, digits: &'a mut Buffer) -> &'a [u8]
    ensures { result.now ≡ word_of_scale k }
{
    match k {
        Some(k) => scale_word(k, digits),
        None => b"over",
    }
}

// The name of a place, empty where there is none.
fn name(game: &Game, place: WorldId) -> &[u8]
    ensures { result.now ≡ name_of game.now.names place.0 }
{
    if place.0 < game.names.count() {
        game.names.name(place.0).as_bytes()
    } else {
        &[]
    }
}

/// The refusal of a game without perfect recall, at a line; the histories of the fault lead to these worlds.
pub fn refused_recall(
    alloc: Global,
    game: &Game,
    line: u32,
    fault: RecallFault,
    first: WorldId,
    second: WorldId,
) -> Stop
    requires { AreWorlds (game_model game.now) fault first.0 second.0 }
    ensures { RefusesRecall (game_model game.now) line (recall.fault_in fault) result }
{
    let one = name(game, first);
    let two = name(game, second);
    match fault {
        RecallFault::LegalDiffers { seat, .. } => {
            refused_seat(alloc, line, Code::LegalDiffers, seat, one, two)
        }
        RecallFault::Forgotten { seat, .. } => {
            refused_seat(alloc, line, Code::Forgotten, seat, one, two)
        }
        RecallFault::Memory => Stop::Memory,
    }
}

// The refusal of what concerns a seat at two worlds.
fn refused_seat(alloc: Global, line: u32, code: Code, seat: u32, one: &[u8], two: &[u8]) -> Stop
    ensures { IsRefusal (refusal_of line (code_name code) (numeral seat ∷ one.now ∷ two.now ∷ [])) result }
{
    let mut digits = Buffer::new();
    refused_with(
        alloc,
        line,
        code,
        &[number_word(seat, &mut digits), one, two],
    )
}
