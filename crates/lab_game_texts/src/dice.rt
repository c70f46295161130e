//! Liar's dice with one die each of two faces: bids 1 and 2 claim one die of that face, 3 and 4 two dice of face 1 and 2.
use crate::turns::{Turn, end_name, other, push_world};
use std::alloc::{AllocError, Global};

const START: &str = "\
fosg 1
grid 12
horizon 6
memory acts
token -
token f1
token f2
token b1
token b2
token b3
token b4
token liar
world deal
one .
two .
row . .
to 1 d-1-1-0-1 f1 f1 -
to 1 d-1-2-0-1 f1 f2 -
to 1 d-2-1-0-1 f2 f1 -
to 1 d-2-2-0-1 f2 f2 -
";

const END: &str = "\
end e-m1 -1
end e-1 1
root deal
done
";

// The faces of seat 1 and of seat 2.
const FACES: [(u8, u8); 4] = [(1, 1), (1, 2), (2, 1), (2, 2)];

// Each last bid, 0 for none, with the seat that acts behind it.
const BIDS: [(u8, u8); 8] = [
    (0, 1),
    (1, 2),
    (2, 1),
    (2, 2),
    (3, 1),
    (3, 2),
    (4, 1),
    (4, 2),
];

/// The text of the game.
pub fn dice_text(alloc: Global) -> Result<String, AllocError> {
    let mut text = String::from_str(alloc, START)?;
    for (one, two) in FACES {
        for (last, seat) in BIDS {
            let turns = turns(alloc, one, two, last, seat)?;
            let name = format!(in alloc; "d-{one}-{two}-{last}-{seat}")?;
            push_world(&mut text, name.as_str(), seat, turns.as_slice())?;
        }
    }
    text.push_str(END)?;
    Ok(text)
}

// A seat's turns behind a bid: the higher bids, and to doubt it.
fn turns(alloc: Global, one: u8, two: u8, last: u8, seat: u8) -> Result<Vec<Turn>, AllocError> {
    let mut turns = Vec::new(alloc);
    for bid in 1..5u8 {
        if last < bid {
            let action = format!(in alloc; "b{bid}")?;
            let place = format!(in alloc; "d-{one}-{two}-{bid}-{}", other(seat))?;
            turns.push(Turn::new(alloc, action.as_str(), place, action.as_str())?)?;
        }
    }
    if 0 < last {
        let winner = if is_true(one, two, last) {
            other(seat)
        } else {
            seat
        };
        let place = end_name(alloc, winner, 1)?;
        turns.push(Turn::new(alloc, "liar", place, "liar")?)?;
    }
    Ok(turns)
}

// Whether the faces are as a bid claims.
fn is_true(one: u8, two: u8, bid: u8) -> bool {
    if bid <= 2 {
        one == bid || two == bid
    } else {
        one == two && one == bid - 2
    }
}
