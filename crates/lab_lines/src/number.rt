//! Numbers as words.

ghost use Rattle.std.specs.Prelude.{◌≡◌, ◌≤◌, length};
ghost use Rattle.lab_defs_text.specs.Numbers.{numeral};

use itoa::Buffer;

/// A number as a word.
pub fn number_word<'a>(number: u32, digits: &'a mut Buffer) -> &'a [u8]
    ensures word { result.now ≡ numeral number }
    ensures short { length result.now ≤ 10 }
{
    digits.format(number).as_bytes()
}
