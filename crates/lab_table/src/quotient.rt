//! Parts of a grid: a product over a total, rounded down.

ghost use Rattle.std.specs.Prelude.{◌≡◌, ◌<◌, ◌≤◌, ◌+◌, ◌*◌, ◌/◌, ◌%◌, ◌^◌};

// The greatest total at which the product of the grid and a share fits in 128 bits.
const PRODUCT_FITS: u128 = 1 << 115;

/// The part of a grid that a share of a total is, rounded down.
pub fn quotient(d: u32, share: u128, total: u128) -> u32
    requires grid { d ≤ 4096 }
    requires share { share ≤ total }
    requires some { 0 < total }
    requires total { total ≤ 2 ^ 125 }
    ensures exact { result ≡ d * share / total }
    ensures within { result ≤ d }
{
    if share == 0 {
        0
    } else if total <= PRODUCT_FITS {
        (d as u128 * share / total) as u32
    } else {
        by_digits(d, share, total)
    }
}

// The quotient, digit by digit of the grid, without the whole product.
fn by_digits(d: u32, share: u128, total: u128) -> u32
    requires grid { d ≤ 4096 }
    requires share { share ≤ total }
    requires some { 0 < total }
    requires total { total ≤ 2 ^ 125 }
    ensures { result ≡ d * share / total }
{
    let mut quotient = 0u32;
    let mut rest = 0u128;
    let mut low = 13u32;
    while low > 0 {
        low -= 1;
        (quotient, rest) = doubled(quotient, rest, digit(d, low, share), total);
    }
    quotient
}

// The share where the grid has that binary digit, else 0.
fn digit(d: u32, low: u32, share: u128) -> u128
    requires { low < 32 }
    ensures { result ≡ d / 2 ^ low % 2 * share }
{
    if (d >> low) % 2 == 1 { share } else { 0 }
}

// Twice a quotient and its rest, and a number more.
fn doubled(quotient: u32, rest: u128, added: u128, total: u128) -> (u32, u128)
    requires quotient { quotient ≤ 4096 }
    requires rest { rest < total }
    requires added { added ≤ total }
    requires total { total ≤ 2 ^ 125 }
    ensures same { result.0 * total + result.1 ≡ 2 * (quotient * total + rest) + added }
    ensures rest { result.1 < total }
{
    let sum = 2 * rest + added;
    if sum < total {
        (2 * quotient, sum)
    } else if sum - total < total {
        (2 * quotient + 1, sum - total)
    } else {
        (2 * quotient + 2, sum - total - total)
    }
}
