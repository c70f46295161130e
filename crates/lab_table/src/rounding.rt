//! The rounding rule.

ghost use Rattle.std.specs.Prelude.{◌≡◌, ◌<◌, ◌≤◌, ◌-◌, ◌*◌, ◌/◌, ◌^◌, ◌&&◌, nat_lt, if◌then◌else◌, ℕ, map, length};
ghost use Rattle.std.specs.List.{All};
ghost use Rattle.lab_math.specs.Sums.{sum_over};
ghost use Rattle.lab_defs_value.specs.Rounding.{rounded, part, share_size, may_gain};
ghost use Rattle.lab_table.specs.Sizes.{sizes, gained};

use super::quotient::quotient;
use lab_units::Worth;

/// Writes the weights on a grid of `d` that shares are rounded to.
pub fn rounded(shares: &[Worth], d: u32, out: &mut [u32])
    requires same { length shares.now ≡ length out.old }
    requires some { 1 ≤ length shares.now }
    requires least { 1 ≤ d }
    requires grid { d ≤ 4096 }
    requires whole { sum_over (λ s. s) (sizes shares.now) ≤ 2 ^ 125 }
    ensures { out.new ≡ rounded d (map (λ w. w.0) shares.now) }
{
    let total = whole(shares);
    let left = parts(shares, d, total, out);
    hand_out(shares, d, total, left, out);
}

// A share's size: a negative one counts as 0.
fn size(share: Worth) -> u128
    ensures { result ≡ share_size share.0 }
{
    if share.0 > 0 { share.0 as u128 } else { 0 }
}

// The sizes together.
fn whole(shares: &[Worth]) -> u128
    requires { sum_over (λ s. s) (sizes shares.now) ≤ 2 ^ 125 }
    ensures { result ≡ sum_over (λ s. s) (sizes shares.now) }
{
    let mut total = 0;
    for i in 0..shares.len() {
        total += size(shares[i]);
    }
    total
}

// What a share gets before the units that are left go out.
fn part_of(d: u32, even: u32, whole: u128, size: u128) -> u32
    requires grid { d ≤ 4096 }
    requires even { even ≤ d }
    requires size { size ≤ whole }
    requires whole { whole ≤ 2 ^ 125 }
    ensures exact { (many : ℕ) → even ≡ d / many → result ≡ part d many whole size }
    ensures within { result ≤ d }
{
    if whole == 0 {
        even
    } else {
        quotient(d, size, whole)
    }
}

// Writes the parts, and returns how many units are left.
fn parts(shares: &[Worth], d: u32, whole: u128, out: &mut [u32]) -> u32
    requires same { length shares.now ≡ length out.old }
    requires some { 1 ≤ length shares.now }
    requires grid { d ≤ 4096 }
    requires sum { whole ≡ sum_over (λ s. s) (sizes shares.now) }
    requires whole { whole ≤ 2 ^ 125 }
    ensures parts { out.new ≡ map (part d (length shares.now) whole) (sizes shares.now) }
    ensures within { All (λ p. p ≤ d) out.new }
    ensures left { result ≡ d - sum_over (part d (length shares.now) whole) (sizes shares.now) }
{
    let even = (d as u64 / shares.len() as u64) as u32;
    let mut left = d;
    for i in 0..shares.len() {
        let part = part_of(d, even, whole, size(shares[i]));
        out[i] = part;
        left = left.saturating_sub(part);
    }
    left
}

// Hands the units that are left out, one each to the first shares that may get one.
fn hand_out(shares: &[Worth], d: u32, whole: u128, units: u32, out: &mut [u32])
    requires same { length shares.now ≡ length out.old }
    requires grid { d ≤ 4096 }
    requires within { All (λ p. p ≤ d) out.old }
    ensures { out.new ≡ gained whole units (sizes shares.now) out.old }
{
    let mut left = units;
    for i in 0..shares.len() {
        let gain = gain(whole, size(shares[i]), left);
        out[i] += gain;
        left -= gain;
    }
}

// The unit that a share gets, if it may have one and some are left.
fn gain(whole: u128, size: u128, left: u32) -> u32
    ensures exact { result ≡ (if may_gain whole size && nat_lt 0 left then 1 else 0) }
    ensures one { result ≤ 1 }
    ensures within { result ≤ left }
{
    if left > 0 && (whole == 0 || size > 0) {
        1
    } else {
        0
    }
}
