//! Laws of greatest common divisors and least common multiples.

ghost use Rattle.lab_math.specs.Laws.{GcdLaw, LcmLaw, LcmOfLaw};

/// Euclid's remainders end with the greatest common divisor.
pub fn divisors()
    ensures { GcdLaw }
{}

/// The least common multiple of two numbers, and of several, is one, and divides every other.
pub fn multiples()
    ensures two { LcmLaw }
    ensures several { LcmOfLaw }
{}
