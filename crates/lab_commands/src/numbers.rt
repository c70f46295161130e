//! Words that are numbers or rules, and how many words there are.
ghost use Rattle.std.specs.Prelude.{◌≡◌, ◌<◌, ◌+◌, ◌^◌, ℤ, pos, length, map, Ok};
ghost use Rattle.std.specs.Int.RustNames.{unsigned_abs};
ghost use Rattle.lab_defs_text.specs.Agreement.{Agrees};
ghost use Rattle.lab_defs_text.specs.Reading.{number_at as number_in};
ghost use Rattle.lab_defs_report.specs.Commands.{small_at, smalls_at, draw_at, draws_at, rule_at as rule_in};
ghost use Rattle.lab_rule.specs.Names.{rule_model};
ghost use Rattle.lab_text.specs.Drafts.{pieces};
ghost use Rattle.lab_text.specs.Faults.{line_fault};

use lab_rule::RuleName;
use lab_seq::Seq;
use lab_text::{LineFault, whole_in};
use std::alloc::Global;

/// A number of 32 bits.
pub fn small(place: u32, word: &[u8]) -> Result<u32, LineFault>
    ensures { Agrees (λ n. n) line_fault result (small_at place word.now) }
{
    let number = whole_in(word, place, 0, 4_294_967_295)?;
    Ok(number as u32)
}

/// A number of rounds of play.
pub fn play_rounds(place: u32, word: &[u8]) -> Result<u32, LineFault>
    ensures { Agrees (λ n. n) line_fault result (number_in place 1 65536 word.now) }
{
    let number = whole_in(word, place, 1, 65536)?;
    Ok(number as u32)
}

/// A number of 64 bits.
pub fn draw(place: u32, word: &[u8]) -> Result<u64, LineFault>
    ensures { Agrees (λ n. n) line_fault result (draw_at place word.now) }
{
    let number = whole_in(word, place, 0, 18_446_744_073_709_551_615)?;
    Ok(number as u64)
}

/// Numbers of 32 bits, the first of them at a place.
pub fn smalls(alloc: Global, first: u32, words: &[&[u8]]) -> Result<Seq<u32>, LineFault>
    requires { first + length words.now < 2 ^ 32 }
    ensures { Agrees (λ ns. ns) line_fault result (smalls_at first (pieces words.now)) }
{
    let mut found = Vec::new(alloc);
    for i in 0..words.len() {
        found.push(small(first + i as u32, words[i])?)?;
    }
    Ok(Seq::from_vec(found))
}

/// Numbers of 64 bits, the first of them at a place.
pub fn draws(alloc: Global, first: u32, words: &[&[u8]]) -> Result<Seq<u64>, LineFault>
    requires { first + length words.now < 2 ^ 32 }
    ensures { Agrees (λ ns. ns) line_fault result (draws_at first (pieces words.now)) }
{
    let mut found = Vec::new(alloc);
    for i in 0..words.len() {
        found.push(draw(first + i as u32, words[i])?)?;
    }
    Ok(Seq::from_vec(found))
}

/// A rule by its name.
pub fn rule_at(place: u32, word: &[u8]) -> Result<RuleName, LineFault>
    ensures { Agrees rule_model line_fault result (rule_in place word.now) }
{
    if word == b"cfrd".as_slice() {
        return Ok(RuleName::Cfrd);
    }
    if word == b"margin".as_slice() {
        return Ok(RuleName::Margin);
    }
    if word == b"reach".as_slice() {
        return Ok(RuleName::Reach);
    }
    Err(LineFault::BadWord { place })
}
