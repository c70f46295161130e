//! Leduc poker with six cards, two of each of three ranks.
use crate::turns::{Turn, end_name, other, push_world};
use std::alloc::{AllocError, Global};

const TOKENS: &str = "\
horizon 9
memory acts
token -
token r1
token r2
token r3
token check
token call
token raise
token fold
token check-1
token check-2
token check-3
token call-1
token call-2
token call-3
world deal
one .
two .
row . .
";

const END: &str = "\
end e-m13 -13
end e-m11 -11
end e-m9 -9
end e-m7 -7
end e-m5 -5
end e-m3 -3
end e-m1 -1
end e-0 0
end e-1 1
end e-3 3
end e-5 5
end e-7 7
end e-9 9
end e-11 11
end e-13 13
root deal
done
";

// The ranks of seat 1's card, of seat 2's, and of the card that the table shows in the second round.
#[derive(Clone, Copy)]
struct Deal {
    one: u8,
    two: u8,
    table: u8,
}

// A round of betting: how the names of its worlds begin, the stake before it, and what a raise adds.
#[derive(Clone, Copy)]
struct Round<'a> {
    deal: Deal,
    start: &'a str,
    stake: u16,
    raise: u8,
    is_last: bool,
}

// What an action leads to in a round: a position, a fold, or the closing of the round.
#[derive(Clone, Copy)]
enum Next {
    At(&'static str),
    Fold,
    Closing(&'static str),
}

// A position of a round: the seat that acts, the raises before it, and what the actions lead to.
#[derive(Clone, Copy)]
struct Position {
    name: &'static str,
    seat: u8,
    raises: u8,
    actions: &'static [(&'static str, Next)],
}

const POSITIONS: [Position; 6] = [
    Position {
        name: "0",
        seat: 1,
        raises: 0,
        actions: &[("check", Next::At("c")), ("raise", Next::At("r"))],
    },
    Position {
        name: "c",
        seat: 2,
        raises: 0,
        actions: &[("check", Next::Closing("cc")), ("raise", Next::At("cr"))],
    },
    Position {
        name: "r",
        seat: 2,
        raises: 1,
        actions: &[
            ("fold", Next::Fold),
            ("call", Next::Closing("rc")),
            ("raise", Next::At("rr")),
        ],
    },
    Position {
        name: "cr",
        seat: 1,
        raises: 1,
        actions: &[
            ("fold", Next::Fold),
            ("call", Next::Closing("crc")),
            ("raise", Next::At("crr")),
        ],
    },
    Position {
        name: "rr",
        seat: 1,
        raises: 2,
        actions: &[("fold", Next::Fold), ("call", Next::Closing("rrc"))],
    },
    Position {
        name: "crr",
        seat: 2,
        raises: 2,
        actions: &[("fold", Next::Fold), ("call", Next::Closing("crrc"))],
    },
];

// How a first round closes, with its raises.
const CLOSINGS: [(&str, u8); 5] = [("cc", 0), ("rc", 1), ("crc", 1), ("rrc", 2), ("crrc", 2)];

/// The text of the game on a grid.
pub fn leduc_text(alloc: Global, grid: u32) -> Result<String, AllocError> {
    let mut text = String::new(alloc);
    write!(text, "fosg 1\ngrid {grid}\n{TOKENS}")?;
    let deals = deals(alloc)?;
    push_outcomes(&mut text, deals.as_slice())?;
    push_hands(alloc, &mut text, deals.as_slice())?;
    text.push_str(END)?;
    Ok(text)
}

// All deals; no rank has three cards.
fn deals(alloc: Global) -> Result<Vec<Deal>, AllocError> {
    let mut deals = Vec::new(alloc);
    for one in 1..4u8 {
        for two in 1..4u8 {
            for table in 1..4u8 {
                if one != two || two != table {
                    deals.push(Deal { one, two, table })?;
                }
            }
        }
    }
    Ok(deals)
}

// Writes the outcomes that are the deals; a rank that no other card has can be either of two cards.
fn push_outcomes(text: &mut String, deals: &[Deal]) -> Result<(), AllocError> {
    for deal in deals {
        let Deal { one, two, table } = *deal;
        let differ = one != two && two != table && one != table;
        let weight = if differ { 8 } else { 4 };
        write!(text, "to {weight} l-{one}{two}{table}-0 r{one} r{two} -\n")?;
    }
    Ok(())
}

// Writes the worlds behind the deals.
fn push_hands(alloc: Global, text: &mut String, deals: &[Deal]) -> Result<(), AllocError> {
    for deal in deals {
        push_first(alloc, text, *deal)?;
        for (closing, raises) in CLOSINGS {
            push_second(alloc, text, *deal, closing, raises)?;
        }
    }
    Ok(())
}

// Writes the worlds of the first round.
fn push_first(alloc: Global, text: &mut String, deal: Deal) -> Result<(), AllocError> {
    let start = format!(in alloc; "l-{}{}{}-", deal.one, deal.two, deal.table)?;
    let round = Round {
        deal,
        start: start.as_str(),
        stake: 1,
        raise: 2,
        is_last: false,
    };
    push_round(alloc, text, round)
}

// Writes the worlds of the second round behind a closing with raises.
fn push_second(
    alloc: Global,
    text: &mut String,
    deal: Deal,
    closing: &str,
    raises: u8,
) -> Result<(), AllocError> {
    let start = format!(in alloc; "l-{}{}{}-{closing}-", deal.one, deal.two, deal.table)?;
    let round = Round {
        deal,
        start: start.as_str(),
        stake: 1 + 2 * raises as u16,
        raise: 4,
        is_last: true,
    };
    push_round(alloc, text, round)
}

// Writes the worlds of a round.
fn push_round(alloc: Global, text: &mut String, round: Round) -> Result<(), AllocError> {
    for position in POSITIONS {
        let turns = turns(alloc, round, position)?;
        let name = format!(in alloc; "{}{}", round.start, position.name)?;
        push_world(text, name.as_str(), position.seat, turns.as_slice())?;
    }
    Ok(())
}

// The turns of the seat that acts at a position.
fn turns(alloc: Global, round: Round, position: Position) -> Result<Vec<Turn>, AllocError> {
    let mut turns = Vec::new(alloc);
    for (action, next) in position.actions {
        turns.push(turn(alloc, round, position, action, *next)?)?;
    }
    Ok(turns)
}

// The turn of an action at a position.
fn turn(
    alloc: Global,
    round: Round,
    position: Position,
    action: &str,
    next: Next,
) -> Result<Turn, AllocError> {
    match next {
        Next::At(name) => {
            let place = format!(in alloc; "{}{name}", round.start)?;
            Turn::new(alloc, action, place, action)
        }
        Next::Fold => {
            let stake = stake(round, position.raises.saturating_sub(1));
            let place = end_name(alloc, other(position.seat), stake)?;
            Turn::new(alloc, action, place, action)
        }
        Next::Closing(name) => {
            if round.is_last {
                let place = end_name(alloc, winner(round.deal), stake(round, position.raises))?;
                return Turn::new(alloc, action, place, action);
            }
            let place = format!(in alloc; "{}{name}-0", round.start)?;
            let token = format!(in alloc; "{action}-{}", round.deal.table)?;
            Turn::new(alloc, action, place, token.as_str())
        }
    }
}

// What a seat loses in a round behind raises.
fn stake(round: Round, raises: u8) -> u32 {
    round.stake as u32 + round.raise as u32 * raises as u32
}

// The seat whose card is of the table's rank, or else the higher one; 0 where the ranks are equal.
fn winner(deal: Deal) -> u8 {
    if deal.one == deal.two {
        0
    } else if deal.one == deal.table || deal.two != deal.table && deal.two < deal.one {
        1
    } else {
        2
    }
}
