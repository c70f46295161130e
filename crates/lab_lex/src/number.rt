//! Whole numbers.

ghost use Rattle.std.specs.Prelude.{
  ◌≡◌,
  ◌^◌,
  ◌-◌,
  ◌==◌,
  min,
  true,
  Some,
  None,
  SomeIff,
  if◌then◌else◌,
  slice_index,
};
ghost use Rattle.std.specs.Char.{is_ascii_digit};
ghost use Rattle.std.specs.List.{list_all};
ghost use Rattle.std.specs.Str.Parse.{digits_value};
ghost use Rattle.std.specs.Int.{w128};
ghost use Rattle.std.specs.Int.RustNames.{FitsSigned};
ghost use Rattle.lab_defs_text.specs.Numbers.{is_unsigned, is_whole, whole_size, signed_of};
ghost use Rattle.lab_lex.specs.Numbers.{whole_answer};

use crate::LexFault;

/// The whole number that a word spells, where it lies from `lo` to `hi`, both included.
pub fn whole(word: &[u8], place: u32, lo: i128, hi: i128) -> Result<i128, LexFault>
    ensures { result ≡ whole_answer word.now place lo hi }
{
    let Some((below_zero, size)) = parts(word) else {
        return Err(LexFault::BadNumber { place });
    };
    match with_sign(below_zero, size) {
        Some(value) if lo <= value && value <= hi => Ok(value),
        _ => Err(LexFault::OutOfRange { place }),
    }
}

// The sign and the size of a whole number, its size clipped at the greatest u128.
fn parts(word: &[u8]) -> Option<(bool, u128)>
    ensures { result ≡
        (if is_whole word.now then
        Some (slice_index word.now 0 == 45, min (whole_size word.now) (2 ^ 128 - 1))
        else None) }
{
    let below_zero = word.first() == Some(&b'-');
    let digits = if below_zero { &word[1..] } else { word };
    if !spells_unsigned(digits) || below_zero && digits[0] == b'0' {
        return None;
    }
    Some((below_zero, saturated(digits)))
}

fn spells_unsigned(word: &[u8]) -> bool
    ensures { result ≡ is_unsigned word.now }
{
    !word.is_empty() && (word.len() == 1 || word[0] != b'0') && all_digits(word)
}

fn all_digits(word: &[u8]) -> bool
    ensures { result ≡ list_all is_ascii_digit word.now }
{
    word.iter().all(|c| c.is_ascii_digit())
}

// The value of digits, or the greatest u128 where it is past that.
fn saturated(word: &[u8]) -> u128
    requires { list_all is_ascii_digit word.now ≡ true }
    ensures { result ≡ min (digits_value 10 word.now) (2 ^ 128 - 1) }
{
    let mut value = 0u128;
    for c in word {
        value = value.saturating_mul(10).saturating_add((*c - b'0') as u128);
    }
    value
}

// The number of a sign and a size, if it is an i128.
fn with_sign(below_zero: bool, size: u128) -> Option<i128>
    ensures { SomeIff result
        (FitsSigned w128 (signed_of below_zero size)) (signed_of below_zero size) }
{
    if size <= i128::MAX as u128 {
        let value = size as i128;
        return Some(if below_zero { -value } else { value });
    }
    if below_zero && size == 1 << 127 {
        Some(i128::MIN)
    } else {
        None
    }
}
