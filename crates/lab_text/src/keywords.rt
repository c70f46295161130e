//! The first words of lines, which tell their kinds.
ghost use Rattle.std.specs.Prelude.{◌≡◌, option_map, true, IfSome, Some, None, if◌then◌else◌};
ghost use Rattle.std.specs.Str.{bytes_eq};
ghost use Rattle.lab_defs_text.specs.Reading.{kind_among, next_kinds, token_kind, to_kind, end_kind};
ghost use Rattle.lab_text.specs.Drafts.{kind_is, fits_behind};

use crate::line_kind::LineKind;

/// The kind of line that begins with a word, among those that may follow a line of a kind.
pub fn kind_in(last: LineKind, word: &[u8]) -> Option<LineKind>
    ensures kind { option_map kind_is result ≡ kind_among (next_kinds (kind_is last)) word.now }
    ensures fits { IfSome result (λ k. fits_behind last k ≡ true) }
{
    match last {
        LineKind::Start => only_kind(word, b"fosg", LineKind::Head),
        LineKind::Head => only_kind(word, b"grid", LineKind::Grid),
        LineKind::Grid => only_kind(word, b"horizon", LineKind::Horizon),
        LineKind::Horizon => only_kind(word, b"memory", LineKind::Memory),
        LineKind::Memory => only_kind(word, b"token", LineKind::Token),
        LineKind::Token => behind_token(word),
        LineKind::World => only_kind(word, b"one", LineKind::One),
        LineKind::One => only_kind(word, b"two", LineKind::Two),
        LineKind::Two => only_kind(word, b"row", LineKind::Row),
        LineKind::Row => only_kind(word, b"to", LineKind::To),
        LineKind::To => behind_outcome(word),
        LineKind::End => behind_end(word),
        LineKind::Root => only_kind(word, b"done", LineKind::Done),
        LineKind::Done => None,
    }
}

fn only_kind(word: &[u8], keyword: &[u8], kind: LineKind) -> Option<LineKind>
    ensures { result ≡ (if bytes_eq word.now keyword.now then Some kind else None) }
{
    if word == keyword { Some(kind) } else { None }
}

fn behind_token(word: &[u8]) -> Option<LineKind>
    ensures kind { option_map kind_is result ≡ kind_among (next_kinds token_kind) word.now }
    ensures fits { IfSome result (λ k. fits_behind LineKind.Token k ≡ true) }
{
    if word == b"token".as_slice() {
        return Some(LineKind::Token);
    }
    if word == b"world".as_slice() {
        return Some(LineKind::World);
    }
    if word == b"end".as_slice() {
        return Some(LineKind::End);
    }
    None
}

fn behind_outcome(word: &[u8]) -> Option<LineKind>
    ensures kind { option_map kind_is result ≡ kind_among (next_kinds to_kind) word.now }
    ensures fits { IfSome result (λ k. fits_behind LineKind.To k ≡ true) }
{
    if word == b"to".as_slice() {
        return Some(LineKind::To);
    }
    if word == b"row".as_slice() {
        return Some(LineKind::Row);
    }
    behind_end(word)
}

fn behind_end(word: &[u8]) -> Option<LineKind>
    ensures kind { option_map kind_is result ≡ kind_among (next_kinds end_kind) word.now }
    ensures fits { IfSome result (λ k. fits_behind LineKind.End k ≡ true) }
{
    if word == b"world".as_slice() {
        return Some(LineKind::World);
    }
    if word == b"end".as_slice() {
        return Some(LineKind::End);
    }
    if word == b"root".as_slice() {
        return Some(LineKind::Root);
    }
    None
}
