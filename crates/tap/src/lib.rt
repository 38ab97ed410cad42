// One binary64 tap rounded to a whole coefficient.
#![tactic(auto)]

pub mod finite;
pub mod pattern;

ghost use Rattle.std.specs.Prelude.{◌≡◌, true, false, ◌≤◌, pos};
ghost use Rattle.std.specs.Float.Ieee as Ieee;
ghost use Rattle.std.specs.Float.{fin, binary64};
ghost use Rattle.refusal.specs.Answer.{given};
ghost use Rattle.tap.specs.Rounding.{answer_of, TapRounded};
ghost use Rattle.tap.specs.Inner.{nearest_of, rounds_within_of, parted};

use refusal::Refusal;

// What a tap comes back as: N with nothing left over, N with the leftover tap * 2^F - N, or a
// refusal.
// Stays: document 01 names the enum with these three cases, so that the refusal is one and there is no Result.
#[derive(Clone, Copy)]
pub enum RoundedTap {
    Exact(i32),
    Rounded(i32, f64),
    Refused(Refusal),
}

// x * 2^f. A power of 2 has no digits beside its exponent, which stands above 52 bits with 1023 added.
fn scaled(x: f64, f: u32) -> f64
    requires { f ≤ 31 }
    ensures { result ≡ Ieee.mul binary64 x (fin false 1 (pos f)) }
{
    x * f64::from_bits((1023 + (f as u64)) * 0x10_0000_0000_0000)
}

// Whether the whole number nearest to x is a coefficient. The halves at the ends go to the even number:
// 2^31 - 1/2 to 2^31, and -2^31 - 1/2 to -2^31.
fn rounds_within(x: f64) -> bool
    ensures { result ≡ rounds_within_of x }
{
    x < 2147483647.5 && x >= -2147483648.5
}

// The whole number nearest to x, and of two that are as near the even one. From 2^52 to 2^53 a float
// has no digits for a fraction; the number added, 2^52 + 2^51, is in the middle, and even.
// Stays: two edits name the sum, and `round_ties_even` tests the size and the sign besides.
fn nearest_even(x: f64) -> f64
    requires { rounds_within_of x ≡ true }
    ensures { result ≡ Ieee.of_int binary64 (nearest_of x) }
{
    (x + 6755399441055744.0) - 6755399441055744.0
}

// The same, no longer a float.
fn nearest(x: f64) -> i32
    requires { rounds_within_of x ≡ true }
    ensures { result ≡ nearest_of x }
{
    nearest_even(x) as i32
}

// x as the whole number n and the rest.
fn part(x: f64, n: i32) -> RoundedTap
    ensures { answer_of result ≡ given (parted x n) }
{
    let y = n as f64;
    if x == y {
        RoundedTap::Exact(n)
    } else {
        RoundedTap::Rounded(n, x - y)
    }
}

// The tap times 2^F rounded to the nearest whole number, an exact half to the even one.
pub fn round_tap(tap: f64, fraction_bits: u32) -> RoundedTap
    ensures { TapRounded fraction_bits tap (answer_of result) }
{
    if fraction_bits > 31 {
        return RoundedTap::Refused(Refusal::FractionBits);
    }
    let x = scaled(tap, fraction_bits);
    if rounds_within(x) {
        return part(x, nearest(x));
    }
    if finite::is_finite(tap) {
        RoundedTap::Refused(Refusal::OutOfBounds(0))
    } else {
        RoundedTap::Refused(Refusal::TapNotFinite(0))
    }
}
