//! Exact amounts: worths in their unit, fractions in lowest terms and their text, powers and multiples up to a limit.
#![tactic(auto)]

mod bounded;
mod fraction;
mod lowest;
mod worth;

pub use bounded::{lcm_within, pow_within};
pub use fraction::{Fraction, write_fraction};
pub use lowest::reduced;
pub use worth::Worth;

#[cfg(test)]
mod tests {
    use super::*;

    #[test]
    fn text_of_a_reduced_fraction(rt: HostRuntime) {
        let mut out = [b'.'; 96];
        let length = write_fraction(&reduced(-84, 36), &mut out);
        assert_eq!(rt; &out[..length], b"-7/3".as_slice());
        assert_eq!(rt; reduced(0, 12), Fraction { num: 0, den: 1 });
        assert!(rt; Worth(-3) < Worth(2));
        assert_eq!(rt; pow_within(2, 10, 1024), Some(1024));
        assert_eq!(rt; lcm_within(6, 4, 11), None);
    }
}
