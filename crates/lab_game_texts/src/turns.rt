//! Lines of games in which one seat acts at a time.
use std::alloc::{AllocError, Global};

/// An action, the place that it leads to, and the token that it shows to all.
#[derive(Drop)]
pub struct Turn {
    action: String,
    place: String,
    token: String,
}

impl Turn {
    /// The turn of an action, with a place and a token.
    pub fn new(
        alloc: Global,
        action: &str,
        place: String,
        token: &str,
    ) -> Result<Turn, AllocError> {
        Ok(Turn {
            action: String::from_str(alloc, action)?,
            place,
            token: String::from_str(alloc, token)?,
        })
    }
}

/// The seat that a seat plays against.
pub fn other(seat: u8) -> u8 {
    if seat == 1 { 2 } else { 1 }
}

/// The name of the end where a seat wins a stake; the seat 0 is for neither.
pub fn end_name(alloc: Global, seat: u8, stake: u32) -> Result<String, AllocError> {
    Ok(match seat {
        0 => String::from_str(alloc, "e-0")?,
        1 => format!(in alloc; "e-{stake}")?,
        _ => format!(in alloc; "e-m{stake}")?,
    })
}

/// Writes a world where a seat has turns and the other one passes.
pub fn push_world(
    text: &mut String,
    name: &str,
    seat: u8,
    turns: &[Turn],
) -> Result<(), AllocError> {
    write!(text, "world {name}\n")?;
    if seat == 1 {
        push_actions(text, "one", turns)?;
        text.push_str("two .\n")?;
    } else {
        text.push_str("one .\n")?;
        push_actions(text, "two", turns)?;
    }
    for turn in turns {
        push_turn(text, seat, turn)?;
    }
    Ok(())
}

fn push_actions(text: &mut String, head: &str, turns: &[Turn]) -> Result<(), AllocError> {
    text.push_str(head)?;
    for turn in turns {
        write!(text, " {}", turn.action)?;
    }
    text.push('\n')?;
    Ok(())
}

fn push_turn(text: &mut String, seat: u8, turn: &Turn) -> Result<(), AllocError> {
    if seat == 1 {
        write!(text, "row {} .\n", turn.action)?;
    } else {
        write!(text, "row . {}\n", turn.action)?;
    }
    write!(text, "to 1 {} - - {}\n", turn.place, turn.token)?;
    Ok(())
}
