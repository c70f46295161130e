//! Kuhn poker with three cards, on a grid of 2.
use crate::turns::{Turn, end_name, other, push_world};
use std::alloc::{AllocError, Global};

const START: &str = "\
fosg 1
grid 2
horizon 4
memory acts
token -
token c1
token c2
token c3
token check
token bet
token fold
token call
world deal
one .
two .
row . .
";

const END: &str = "\
end e-m2 -2
end e-m1 -1
end e-1 1
end e-2 2
root deal
done
";

// What an action leads to: a position, a fold, or the higher card's win of a stake.
#[derive(Clone, Copy)]
enum Next {
    At(&'static str),
    Fold,
    Showdown(u32),
}

// The cards of seat 1 and of seat 2.
const DEALS: [(u8, u8); 6] = [(1, 2), (1, 3), (2, 1), (2, 3), (3, 1), (3, 2)];

// Each position with the seat that acts there and what its actions lead to.
const POSITIONS: [(&str, u8, [(&str, Next); 2]); 4] = [
    ("0", 1, [("check", Next::At("c")), ("bet", Next::At("b"))]),
    (
        "c",
        2,
        [("check", Next::Showdown(1)), ("bet", Next::At("cb"))],
    ),
    ("b", 2, [("fold", Next::Fold), ("call", Next::Showdown(2))]),
    ("cb", 1, [("fold", Next::Fold), ("call", Next::Showdown(2))]),
];

/// The text of the game.
pub fn kuhn_text(alloc: Global) -> Result<String, AllocError> {
    let mut text = String::from_str(alloc, START)?;
    for (one, two) in DEALS {
        write!(text, "to 1 k-{one}-{two}-0 c{one} c{two} -\n")?;
    }
    for (one, two) in DEALS {
        push_deal(alloc, &mut text, one, two)?;
    }
    text.push_str(END)?;
    Ok(text)
}

// Writes the worlds behind a deal.
fn push_deal(alloc: Global, text: &mut String, one: u8, two: u8) -> Result<(), AllocError> {
    for (position, seat, actions) in POSITIONS {
        let mut turns = Vec::new(alloc);
        for (action, next) in actions {
            let place = place(alloc, one, two, seat, next)?;
            turns.push(Turn::new(alloc, action, place, action)?)?;
        }
        let name = format!(in alloc; "k-{one}-{two}-{position}")?;
        push_world(text, name.as_str(), seat, turns.as_slice())?;
    }
    Ok(())
}

// The place that a seat's action leads to.
fn place(alloc: Global, one: u8, two: u8, seat: u8, next: Next) -> Result<String, AllocError> {
    match next {
        Next::At(position) => Ok(format!(in alloc; "k-{one}-{two}-{position}")?),
        Next::Fold => end_name(alloc, other(seat), 1),
        Next::Showdown(stake) => end_name(alloc, if one > two { 1 } else { 2 }, stake),
    }
}
