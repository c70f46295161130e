//! The lines of a game, read from a source: those that a reader has ahead in one piece, and each other
//! line by itself.
ghost use Rattle.std.specs.Prelude.{
  ◌≡◌,
  ◌≢◌,
  ◌≤◌,
  ◌+◌,
  ◌++◌,
  ◌∷◌,
  [],
  IsTrue,
  IfOk,
  IfErr,
  OnOk,
  IfSome,
  length,
  take,
  map,
};
ghost use Rattle.lab_io.specs.Causes.{Rose};
ghost use Rattle.lab_io.specs.Reading.{LineStop};
ghost use Rattle.lab_io.specs.declared.line_reader.TheConstants.{READ_AHEAD};
ghost use Rattle.lab_defs_report.specs.Cuts.{game_limit};
ghost use Rattle.lab_input.specs.PlainLines.{ArePlainLines, GivesLines};

use crate::refusals::{refused, refused_read};
use crate::stop::Stop;
use lab_io::{LineReader, Source, Took};
use lab_lines::Code;
use memchr::memchr;
use std::alloc::{AllocError, Global};

/// The most bytes of the lines of a game.
const GAME_LIMIT: u64 = 16_777_216;

/// The lines of a game up to and with `done`, each with its line feed.
#[derive(Drop)]
pub struct GamePart {
    pub text: Vec<u8>,
    /// The number of the line `done`, counted from 1.
    pub done: u32,
}

impl GamePart {
    ghost use Rattle.lab_input.specs.GameParts.{IsGamePart, CutsOff};

    /// Reads lines up to the first that is `done`.
    pub fn read<S: Source>(
        alloc: Global,
        reader: &mut LineReader,
        source: &mut S,
    ) -> Result<GamePart, Stop>
        requires live { IsTrue reader.old.live }
        requires none_ahead { reader.old.ahead ≡ [] }
        ensures part { IfOk result (λ p.
            IsGamePart (S.left source.old) reader.new.ahead (S.left source.new) p.text.items p.done) }
        ensures live { OnOk result (IsTrue reader.new.live) }
        ensures ahead { OnOk result (length reader.new.ahead ≤ READ_AHEAD) }
        ensures stop { IfErr result (CutsOff (S.left source.old) (S.left source.new)) }
        ensures later { S.faults source.old ≤ S.faults source.new }
        ensures fault { result ≡ Err Stop.ReadFault → Rose (S.faults source.old) (S.faults source.new) }
        ensures no_fault { result ≢ Err Stop.ReadFault → S.faults source.new ≡ S.faults source.old }
    {
        reader.allow(GAME_LIMIT);
        let mut text = Vec::new(alloc);
        let mut number = 1;
        loop {
            number += take_ahead(&mut text, reader)?;
            match reader.next(source) {
                Ok(Took::Line) => {}
                Ok(Took::End) => return Err(refused(alloc, number, Code::CutShort)),
                Err(stop) => return Err(refused_read(alloc, number, Code::GameTooLong, stop)),
            }
            push_ended(&mut text, reader.line())?;
            if reader.line() == b"done".as_slice() {
                return Ok(GamePart { text, done: number });
            }
            number += 1;
        }
    }
}

// Adds to a text the whole lines that a reader has ahead before the first `done`, as far as they are
// within the limit, and returns how many they are.
fn take_ahead(text: &mut Vec<u8>, reader: &mut LineReader) -> Result<u32, AllocError>
    requires paid { reader.old.allowance + length text.old.items ≡ game_limit }
    ensures { IfOk result (λ count.
        GivesLines reader.old reader.new text.old.items text.new.items count) }
{
    let ahead = reader.ahead();
    let allowed = ahead.len().min(GAME_LIMIT as usize - text.len());
    let (bytes, lines) = plain_lines(&ahead[..allowed]);
    text.extend_from_slice(&ahead[..bytes])?;
    reader.give(bytes);
    Ok(lines as u32)
}

// How many bytes the whole lines before the first `done` take, and how many lines they are.
fn plain_lines(bytes: &[u8]) -> (usize, usize)
    ensures within { result.0 ≤ length bytes.now }
    ensures lines { ArePlainLines (take result.0 bytes.now) result.1 }
{
    let mut taken = 0;
    let mut count = 0;
    while let Some(length) = plain_line(&bytes[taken..]) {
        taken += length;
        count += 1;
    }
    (taken, count)
}

// How many bytes the first line takes with its line feed, where it is whole and not `done`.
fn plain_line(bytes: &[u8]) -> Option<usize>
    ensures within { IfSome result (λ n. n ≤ length bytes.now) }
    ensures line { IfSome result (λ n. ArePlainLines (take n bytes.now) 1) }
{
    let end = memchr(b'\n', bytes)?;
    if &bytes[..end] == b"done".as_slice() {
        return None;
    }
    Some(end + 1)
}

// Adds a line with its line feed.
fn push_ended(text: &mut Vec<u8>, line: &[u8]) -> Result<(), AllocError>
    ensures { OnOk result (text.new.items ≡ text.old.items ++ (line.now ++ 10 ∷ [])) }
{
    text.extend_from_slice(line)?;
    text.push(b'\n')?;
    Ok(())
}
