//! Lines of a text: what stands before each line feed.
ghost use Rattle.std.specs.Prelude.{◌≡◌, ◌+◌, ◌∷◌, ◌==◌, [], length, position, IfSome};
ghost use Rattle.std.specs.Option.{option_map_or};
ghost use Rattle.lab_defs_text.specs.Words.{lines as lines_of};

use memchr::memchr;

/// The first line, and what follows its line feed; none where there is no line feed.
pub fn first_line(bytes: &[u8]) -> Option<(&[u8], &[u8])>
    ensures lines { lines_of bytes.now ≡ option_map_or (λ x. x.0.now ∷ lines_of x.1.now) result (bytes.now ∷ []) }
    ensures length { IfSome result (λ x. length x.0.now + 1 + length x.1.now ≡ length bytes.now) }
{
    let end = first_feed(bytes)?;
    Some((&bytes[..end], &bytes[end + 1..]))
}

fn first_feed(bytes: &[u8]) -> Option<usize>
    ensures { result ≡ position (λ c. c == 10) bytes.now }
{
    memchr(b'\n', bytes)
}
