//! Fractions and their text.

ghost use Rattle.std.specs.Prelude.{◌≡◌, ◌+◌, ◌≤◌, length, take, drop, ◌++◌};
ghost use Rattle.lab_defs_text.specs.Fractions.{quotient_text};

use itoa::Buffer;

/// A numerator over a denominator, as they stand: nothing here asks for lowest terms.
#[derive(Clone, Copy, Debug, PartialEq, Eq)]
pub struct Fraction {
    pub num: i128,
    pub den: u128,
}

/// Writes `num/den` at the front of a buffer, and answers its length.
///
/// The parts are written as they stand. The longest text has 80 bytes.
pub fn write_fraction(value: &Fraction, out: &mut [u8; 96]) -> usize
    ensures within { result ≤ 96 }
    ensures text { take result out.new ≡ quotient_text value.now.num value.now.den }
    ensures rest { drop result out.new ≡ drop result out.old }
{
    let Fraction { num, den } = *value;
    let mut digits = Buffer::new();
    let slash = put(out, 0, digits.format(num).as_bytes());
    let start = put(out, slash, b"/");
    put(out, start, digits.format(den).as_bytes())
}

// Writes a piece at a place, and answers where it ends.
fn put(out: &mut [u8], at: usize, piece: &[u8]) -> usize
    requires { at + length piece.now ≤ length out.old }
    ensures end { result ≡ at + length piece.now }
    ensures len { length out.new ≡ length out.old }
    ensures piece { take result out.new ≡ take at out.old ++ piece.now }
    ensures rest { drop result out.new ≡ drop result out.old }
{
    let end = at + piece.len();
    out[at..end].copy_from_slice(piece);
    end
}
