//! The words of a line, and names.

ghost use Rattle.std.specs.Prelude.{
  ◌≡◌,
  ◌<◌,
  ◌≤◌,
  ◌+◌,
  ◌^◌,
  ◌==◌,
  ◌∷◌,
  [],
  length,
  position,
  true,
  false,
  IfOk,
  OnOk,
  IfErr,
  OnErr,
  IfSome,
};
ghost use Rattle.std.specs.Option.{option_map_or};
ghost use Rattle.std.specs.Iterator.{YieldsFirstBy, item_count};
ghost use Rattle.std.specs.List.{list_all};
ghost use Rattle.lab_defs_text.specs.Words.{words as words_of, first_empty, is_name, is_name_byte};

use crate::LexFault;
use std::marker::Model;
use std::str;

/// The words of a line that are left to read.
#[derive(Drop)]
pub struct Pieces<'a> {
    rest: Option<&'a [u8]>,
}

impl<'a> Model for Pieces<'a> {
    ghost use Rattle.std.specs.Prelude.{List, []};
    ghost use Rattle.std.specs.Option.{option_map_or};
    ghost use Rattle.lab_defs_text.specs.Words.{Bytes, words as words_of};

    ghost Value = { List Bytes };

    ghost view = { λ p. option_map_or (λ r. words_of r.now) p.rest [] };
}

impl<'a> Iterator for Pieces<'a> {
    type Item = &'a [u8];

    ghost next_gives = { YieldsFirstBy (λ x. x.now) (λ p. p) };

    ghost remaining = { item_count (λ p. p) };

    fn next(&mut self) -> Option<&'a [u8]> {
        let (front, rest) = first_word(self.rest?);
        self.rest = rest;
        Some(front)
    }
}

/// The words of a line, with one space between each two; each other byte belongs to a word.
pub fn words(line: &[u8]) -> Result<Pieces<'_>, LexFault>
    requires { length line.now < 2 ^ 32 }
    ensures words { IfOk result (λ p. p ≡ words_of line.now) }
    ensures none_empty { OnOk result (first_empty 1 (words_of line.now) ≡ 0) }
    ensures bad_space { IfErr result (λ e. e ≡ LexFault.BadSpace (first_empty 1 (words_of line.now))) }
    ensures some_empty { OnErr result (0 < first_empty 1 (words_of line.now)) }
{
    let place = empty_place(line);
    if place == 0 {
        Ok(Pieces { rest: Some(line) })
    } else {
        Err(LexFault::BadSpace { place })
    }
}

// The place of the first empty word, 0 where there is none.
fn empty_place(line: &[u8]) -> u32
    requires { length line.now < 2 ^ 32 }
    ensures { result ≡ first_empty 1 (words_of line.now) }
{
    let mut place = 1u32;
    let mut empty = true;
    for c in line {
        let space = *c == b' ';
        if space && empty {
            return place;
        }
        if space {
            place += 1;
        }
        empty = space;
    }
    if empty { place } else { 0 }
}

/// The first word of a line, and what follows its space, if it has one: a word has each byte up to the next space.
pub fn first_word(line: &[u8]) -> (&[u8], Option<&[u8]>)
    ensures words { words_of line.now ≡ result.0.now ∷ option_map_or (λ r. words_of r.now) result.1 [] }
    ensures within { length result.0.now ≤ length line.now }
    ensures rest { IfSome result.1 (λ r. length result.0.now + 1 + length r.now ≡ length line.now) }
{
    match first_space(line) {
        None => (line, None),
        Some(at) => (&line[..at], Some(&line[at + 1..])),
    }
}

fn first_space(line: &[u8]) -> Option<usize>
    ensures { result ≡ position (λ c. c == 32) line.now }
{
    line.iter().position(|c| *c == b' ')
}

/// A word that is a name, as text.
pub fn name(word: &[u8], place: u32) -> Result<&str, LexFault>
    ensures bytes { IfOk result (λ name. name.now ≡ word.now) }
    ensures good { OnOk result (is_name word.now ≡ true) }
    ensures bad_name { IfErr result (λ e. e ≡ LexFault.BadName place) }
    ensures bad { OnErr result (is_name word.now ≡ false) }
{
    if !spells_name(word) {
        return Err(LexFault::BadName { place });
    }
    // The bytes of a name are ASCII, so a test for UTF-8 would only cost time.
    Ok(unsafe { str::from_utf8_unchecked(word) })
}

fn spells_name(word: &[u8]) -> bool
    ensures { result ≡ is_name word.now }
{
    !word.is_empty() && word.len() <= 32 && all_name_bytes(word)
}

fn all_name_bytes(word: &[u8]) -> bool
    ensures { result ≡ list_all is_name_byte word.now }
{
    word.iter().all(|c| c.is_ascii_alphanumeric() || matches!(*c, b'_' | b'-' | b'.' | b'/'))
}
