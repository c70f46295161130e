//! Pieces of bytes between separators.
ghost use Rattle.std.specs.Prelude.{◌≡◌, ◌<◌, ◌≤◌, ◌∷◌, ◌==◌, [], IfSome, length, position, slice_index_or, drop};
ghost use Rattle.std.specs.List.{slice_split};
ghost use Rattle.std.specs.Option.{option_map_or};

/// The first piece, and what follows its separator, if it has one.
pub fn cut(bytes: &[u8], separator: u8) -> (&[u8], Option<&[u8]>)
    ensures pieces { slice_split (λ c. c == separator) bytes.now ≡ result.0.now ∷ option_map_or (λ r. slice_split (λ c. c == separator) r.now) result.1 [] }
    ensures within { length result.0.now ≤ length bytes.now }
    ensures less { IfSome result.1 (λ r. length r.now < length bytes.now) }
{
    match first_at(bytes, separator) {
        None => (bytes, None),
        Some(at) => (&bytes[..at], Some(&bytes[at + 1..])),
    }
}

fn first_at(bytes: &[u8], separator: u8) -> Option<usize>
    ensures { result ≡ position (λ c. c == separator) bytes.now }
{
    bytes.iter().position(|c| *c == separator)
}

/// The piece with a number, counted from 0; empty where there is none.
pub fn piece(bytes: &[u8], separator: u8, number: usize) -> &[u8]
    ensures { result.now ≡ slice_index_or (slice_split (λ c. c == separator) bytes.now) number [] }
{
    let mut rest = Some(bytes);
    for _ in 0..number {
        rest = following(rest, separator);
    }
    first_piece(rest, separator)
}

// What follows the first piece, where there is one.
fn following(rest: Option<&[u8]>, separator: u8) -> Option<&[u8]>
    ensures { option_map_or (λ r. slice_split (λ c. c == separator) r.now) result [] ≡ drop 1 (option_map_or (λ r. slice_split (λ c. c == separator) r.now) rest.entry []) }
{
    match rest {
        Some(bytes) => cut(bytes, separator).1,
        None => None,
    }
}

// The first piece, empty where there is none.
fn first_piece(rest: Option<&[u8]>, separator: u8) -> &[u8]
    ensures { result.now ≡ slice_index_or (option_map_or (λ r. slice_split (λ c. c == separator) r.now) rest.entry []) 0 [] }
{
    match rest {
        Some(bytes) => cut(bytes, separator).0,
        None => b"",
    }
}
