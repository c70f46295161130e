//! Each kind of command by the words behind its first.
ghost use Rattle.std.specs.Prelude.{◌≡◌, ◌<◌, ◌+◌, ◌^◌, length, IfOk};
ghost use Rattle.lab_defs_text.specs.Agreement.{Agrees};
ghost use Rattle.lab_defs_report.specs.Commands.{expect_of, blueprint_of, solve_of, bound_of, show_of, three_and_more, propose_of, four_words, resolve_of, cert_of, deal_of, play_of};
ghost use Rattle.lab_commands.specs.Commands.{command_model};
ghost use Rattle.lab_text.specs.Drafts.{pieces};
ghost use Rattle.lab_text.specs.Faults.{line_fault};

use crate::command::Command;
use crate::numbers::{draws, play_rounds, rule_at, small, smalls};
use lab_text::{LineFault, only};
use std::alloc::Global;

pub fn expect(words: &[&[u8]]) -> Result<Command, LineFault>
    ensures { Agrees command_model line_fault result (expect_of (pieces words.now)) }
{
    match words {
        [] => Ok(Command::Expect),
        [word] if *word == b"uniform".as_slice() => Ok(Command::ExpectUniform),
        [word, ..] if *word == b"uniform".as_slice() => Err(LineFault::BadWord { place: 3 }),
        _ => Err(LineFault::BadWord { place: 2 }),
    }
}

pub fn blueprint(alloc: Global, words: &[&[u8]]) -> Result<Command, LineFault>
    requires { length words.now + 2 < 2 ^ 32 }
    ensures { Agrees command_model line_fault result (blueprint_of (pieces words.now)) }
{
    let Some((word, rest)) = words.split_first() else {
        return Err(LineFault::BadWord { place: 2 });
    };
    if *word == b"uniform".as_slice() {
        return if rest.is_empty() {
            Ok(Command::BlueprintUniform)
        } else {
            Err(LineFault::BadWord { place: 3 })
        };
    }
    if *word == b"given".as_slice() {
        return Ok(Command::BlueprintGiven {
            weights: smalls(alloc, 3, rest)?,
        });
    }
    if *word == b"solve".as_slice() {
        return solve(rest);
    }
    Err(LineFault::BadWord { place: 2 })
}

fn solve(words: &[&[u8]]) -> Result<Command, LineFault>
    ensures { Agrees command_model line_fault result (solve_of (pieces words.now)) }
{
    match words {
        [] => Err(LineFault::BadWord { place: 3 }),
        [rounds] => Ok(Command::BlueprintSolve {
            rounds: small(3, rounds)?,
        }),
        _ => Err(LineFault::BadWord { place: 4 }),
    }
}

pub fn bound(words: &[&[u8]]) -> Result<Command, LineFault>
    ensures { Agrees command_model line_fault result (bound_of (pieces words.now)) }
{
    Ok(Command::Bound {
        seat: small(2, only(words)?)?,
    })
}

pub fn show(words: &[&[u8]]) -> Result<Command, LineFault>
    ensures { Agrees command_model line_fault result (show_of (pieces words.now)) }
{
    Ok(Command::Show {
        seat: small(2, only(words)?)?,
    })
}

pub fn cert(words: &[&[u8]]) -> Result<Command, LineFault>
    ensures { Agrees command_model line_fault result (cert_of (pieces words.now)) }
{
    Ok(Command::Cert {
        seat: small(2, only(words)?)?,
    })
}

pub fn play(number: u32, words: &[&[u8]]) -> Result<Command, LineFault>
    ensures { Agrees command_model line_fault result (play_of number (pieces words.now)) }
{
    Ok(Command::Play {
        rounds: play_rounds(2, only(words)?)?,
        seed: number,
    })
}

pub fn deal(alloc: Global, words: &[&[u8]]) -> Result<Command, LineFault>
    requires { length words.now + 2 < 2 ^ 32 }
    ensures { Agrees command_model line_fault result (deal_of (pieces words.now)) }
{
    Ok(Command::Deal {
        words: draws(alloc, 2, words)?,
    })
}

pub fn propose(alloc: Global, words: &[&[u8]]) -> Result<Command, LineFault>
    requires { length words.now + 2 < 2 ^ 32 }
    ensures { Agrees command_model line_fault result (propose_of (pieces words.now)) }
{
    let (seat, node, rule, weights) = three_behind(words)?;
    let seat = small(2, seat)?;
    let node = small(3, node)?;
    let rule = rule_at(4, rule)?;
    Ok(Command::Propose {
        seat,
        node,
        rule,
        weights: smalls(alloc, 5, weights)?,
    })
}

// The three words behind the first one, and those behind them.
fn three_behind<'a, 'b>(
    words: &'b [&'a [u8]],
) -> Result<(&'a [u8], &'a [u8], &'a [u8], &'b [&'a [u8]]), LineFault>
    ensures words { Agrees (λ x. (x.0.now, x.1.now, x.2.now, pieces x.3.now)) line_fault result (three_and_more (pieces words.now)) }
    ensures fewer { IfOk result (λ x. length x.3.now + 3 ≡ length words.now) }
{
    match words {
        [a, b, c, rest @ ..] => Ok((*a, *b, *c, rest)),
        [] => Err(LineFault::BadWord { place: 2 }),
        [_] => Err(LineFault::BadWord { place: 3 }),
        [_, _] => Err(LineFault::BadWord { place: 4 }),
    }
}

pub fn resolve(words: &[&[u8]]) -> Result<Command, LineFault>
    ensures { Agrees command_model line_fault result (resolve_of (pieces words.now)) }
{
    let (seat, node, rule, rounds) = four(words)?;
    let seat = small(2, seat)?;
    let node = small(3, node)?;
    let rule = rule_at(4, rule)?;
    Ok(Command::Resolve {
        seat,
        node,
        rule,
        rounds: small(5, rounds)?,
    })
}

// The four words behind the first one.
fn four<'a>(words: &[&'a [u8]]) -> Result<(&'a [u8], &'a [u8], &'a [u8], &'a [u8]), LineFault>
    ensures { Agrees (λ x. (x.0.now, x.1.now, x.2.now, x.3.now)) line_fault result (four_words (pieces words.now)) }
{
    match words {
        [a, b, c, d] => Ok((*a, *b, *c, *d)),
        [] => Err(LineFault::BadWord { place: 2 }),
        [_] => Err(LineFault::BadWord { place: 3 }),
        [_, _] => Err(LineFault::BadWord { place: 4 }),
        [_, _, _] => Err(LineFault::BadWord { place: 5 }),
        [_, _, _, _, _, ..] => Err(LineFault::BadWord { place: 6 }),
    }
}
