//! The words of a line, and what a word at a place must be. Places count from 1, and the first word tells the kind of the line.
ghost use Rattle.std.specs.Prelude.{◌≡◌, ◌≤◌, ◌<◌, ◌+◌, ◌^◌, ◌==◌, length, vec_len, int_le, ◌&&◌, IfOk, OnOk, true, Ok, Err, if◌then◌else◌};
ghost use Rattle.lab_defs_text.specs.Agreement.{Agrees};
ghost use Rattle.lab_defs_text.specs.Faults.{lexical, bad_space_at};
ghost use Rattle.lab_defs_text.specs.Words.{words as words_of, first_empty};
ghost use Rattle.lab_defs_text.specs.Reading.{no_words, one_word, two_words, five_words, name_at, names_at, whole_at, number_at, payoff_word};
ghost use Rattle.lab_text.specs.Faults.{line_fault};
ghost use Rattle.lab_text.specs.Drafts.{pieces};

use crate::line_fault::LineFault;
use lab_lex::{LexFault, first_word, name, whole};
use std::alloc::Global;

/// The words of a line, with one space between each two.
pub fn all_words<'a>(alloc: Global, line: &'a [u8]) -> Result<Vec<&'a [u8]>, LineFault>
    requires { length line.now < 2 ^ 32 }
    ensures words { Agrees (λ v. pieces v.items) line_fault result
        (if first_empty 1 (words_of line.now) == 0 then Ok (words_of line.now) else Err (lexical (bad_space_at (first_empty 1 (words_of line.now))))) }
    ensures few { IfOk result (λ v. vec_len v ≤ length line.now + 1) }
{
    let mut found = Vec::new(alloc);
    fill_words(&mut found, line)?;
    Ok(found)
}

/// Makes a list that of the words of a line, whatever it was before; so one list serves line after line.
pub fn fill_words<'a>(found: &mut Vec<&'a [u8]>, line: &'a [u8]) -> Result<(), LineFault>
    requires { length line.now < 2 ^ 32 }
    ensures words { Agrees (λ _. pieces found.new.items) line_fault result
        (if first_empty 1 (words_of line.now) == 0 then Ok (words_of line.now) else Err (lexical (bad_space_at (first_empty 1 (words_of line.now))))) }
    ensures few { OnOk result (vec_len found.new ≤ length line.now + 1) }
{
    found.clear();
    let mut place = 1;
    let mut rest = Some(line);
    while let Some(bytes) = rest {
        let (word, after) = first_word(bytes);
        if word.is_empty() {
            return Err(LineFault::Lex(LexFault::BadSpace { place }));
        }
        found.push(word)?;
        place += 1;
        rest = after;
    }
    Ok(())
}

/// No word behind the first one.
pub fn nothing(rest: &[&[u8]]) -> Result<(), LineFault>
    ensures { Agrees (λ _. true) line_fault result (no_words (pieces rest.now)) }
{
    if rest.is_empty() {
        Ok(())
    } else {
        Err(LineFault::BadWord { place: 2 })
    }
}

/// The one word behind the first one.
pub fn only<'a>(rest: &[&'a [u8]]) -> Result<&'a [u8], LineFault>
    ensures { Agrees (λ x. x.now) line_fault result (one_word (pieces rest.now)) }
{
    match rest {
        [] => Err(LineFault::BadWord { place: 2 }),
        [word] => Ok(*word),
        [_, _, ..] => Err(LineFault::BadWord { place: 3 }),
    }
}

/// The two words behind the first one.
pub fn two<'a>(rest: &[&'a [u8]]) -> Result<(&'a [u8], &'a [u8]), LineFault>
    ensures { Agrees (λ x. (x.0.now, x.1.now)) line_fault result (two_words (pieces rest.now)) }
{
    match rest {
        [a, b] => Ok((*a, *b)),
        [] => Err(LineFault::BadWord { place: 2 }),
        [_] => Err(LineFault::BadWord { place: 3 }),
        [_, _, _, ..] => Err(LineFault::BadWord { place: 4 }),
    }
}

/// The five words behind the first one.
pub fn five<'a>(
    rest: &[&'a [u8]],
) -> Result<(&'a [u8], &'a [u8], &'a [u8], &'a [u8], &'a [u8]), LineFault>
    ensures { Agrees (λ x. (x.0.now, x.1.now, x.2.now, x.3.now, x.4.now)) line_fault result (five_words (pieces rest.now)) }
{
    match rest {
        [a, b, c, d, e] => Ok((*a, *b, *c, *d, *e)),
        [] => Err(LineFault::BadWord { place: 2 }),
        [_] => Err(LineFault::BadWord { place: 3 }),
        [_, _] => Err(LineFault::BadWord { place: 4 }),
        [_, _, _] => Err(LineFault::BadWord { place: 5 }),
        [_, _, _, _] => Err(LineFault::BadWord { place: 6 }),
        [_, _, _, _, _, _, ..] => Err(LineFault::BadWord { place: 7 }),
    }
}

/// The name at a place.
pub fn name_in(word: &[u8], place: u32) -> Result<&str, LineFault>
    ensures { Agrees (λ x. x.now) line_fault result (name_at place word.now) }
{
    Ok(name(word, place)?)
}

/// The names behind the first word.
pub fn names_in<'a>(alloc: Global, rest: &[&'a [u8]]) -> Result<Vec<&'a str>, LineFault>
    requires { length rest.now + 1 < 2 ^ 32 }
    ensures names { Agrees (λ v. pieces v.items) line_fault result (names_at 2 (pieces rest.now)) }
    ensures count { IfOk result (λ v. length v.items ≡ length rest.now) }
{
    let mut found = Vec::with_capacity(alloc, rest.len())?;
    for i in 0..rest.len() {
        found.push(name_in(rest[i], i as u32 + 2)?)?;
    }
    Ok(found)
}

/// The natural number at a place, from `lo` to `hi`.
pub fn number_in(word: &[u8], place: u32, lo: u32, hi: u32) -> Result<u32, LineFault>
    ensures { Agrees (λ n. n) line_fault result (number_at place lo hi word.now) }
{
    let number = whole_in(word, place, lo as i128, hi as i128)?;
    Ok(number as u32)
}

/// The payoff at a place.
pub fn payoff_in(word: &[u8], place: u32) -> Result<i32, LineFault>
    ensures { Agrees (λ z. z) line_fault result (payoff_word place word.now) }
{
    let payoff = whole_in(word, place, -1_048_576, 1_048_576)?;
    Ok(payoff as i32)
}

/// The whole number at a place, from `lo` to `hi`.
pub fn whole_in(word: &[u8], place: u32, lo: i128, hi: i128) -> Result<i128, LineFault>
    ensures value { Agrees (λ z. z) line_fault result (whole_at place lo hi word.now) }
    ensures within { IfOk result (λ z. (int_le lo z && int_le z hi) ≡ true) }
{
    Ok(whole(word, place, lo, hi)?)
}
