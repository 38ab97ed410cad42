// A set of binary64 taps rounded to whole coefficients, as they are or normalised.
#![tactic(auto)]

ghost use Rattle.std.specs.Prelude.{◌≡◌, ℕ, true, ◌≤◌, ◌++◌, drop, length, IfOk};
ghost use Rattle.refusal.specs.Answer.{turned_down_of, filled, answer_of};
ghost use Rattle.tap_normalise.specs.Normalised.{used};
ghost use Rattle.tap_set.specs.Set.{larger_of, coefficients_of, TapsRounded};
ghost use Rattle.tap_set.specs.Inner.{magnitude_of, with_leftover, tried, Numbered, finite_first, checked, settled};

use refusal::Refusal;
use tap::RoundedTap;

// The divisor, and the largest leftover by magnitude with its sign.
#[derive(Clone, Copy)]
pub struct Report {
    pub divisor: f64,
    pub leftover: f64,
}

impl Report {
    // The report with one tap's leftover more.
    fn with(self, leftover: f64) -> Report
        ensures { result ≡ with_leftover self leftover }
    {
        Report {
            leftover: larger(self.leftover, leftover),
            ..self
        }
    }
}

// x without its sign, but that -0 keeps it.
// Stays: with `f64::abs`, which tests for zero besides, rounding a set took a fifth longer.
fn magnitude(x: f64) -> f64
    ensures { result ≡ magnitude_of x }
{
    if x < 0.0 { -x } else { x }
}

// Of two leftovers the larger in magnitude, and the first where they are as large.
fn larger(x: f64, y: f64) -> f64
    ensures { result ≡ larger_of x y }
{
    if magnitude(x) < magnitude(y) { y } else { x }
}

// Rounds the numbers into the front of the buffer, up to the first that is turned down. The report
// is handed on from number to number.
fn round_all(xs: &[f64], f: u32, divisor: f64, buffer: &mut [i32]) -> Result<Report, Refusal>
    requires { (length xs.now ≤ 256) × (256 ≤ length buffer.old) }
    ensures result_value { answer_of result ≡ tried f divisor xs.now }
    ensures front { IfOk result (λ r. buffer.new ≡ coefficients_of f xs.now ++ drop (length xs.now) buffer.old) }
{
    let mut report = Report {
        divisor,
        leftover: 0.0,
    };
    for (i, x) in xs.iter().enumerate() {
        let (n, leftover) = match tap::round_tap(*x, f) {
            RoundedTap::Exact(n) => (n, 0.0),
            RoundedTap::Rounded(n, leftover) => (n, leftover),
            RoundedTap::Refused(_) => return Err(Refusal::OutOfBounds(i as u32)),
        };
        buffer[i] = n;
        report = report.with(leftover);
    }
    Ok(report)
}

// The refusal of the first number that is not finite, or the other where all are finite.
fn first_refusal<R: Fn(u32) -> Refusal>(xs: &[f64], not_finite: R, other: Refusal) -> Refusal
    requires within { length xs.now ≤ 256 }
    requires callable { R.IsAlwaysCallable not_finite }
    ensures { (rule : ℕ) → Numbered (R.post not_finite) rule
        → turned_down_of result ≡ finite_first rule xs.now (turned_down_of other) }
{
    match tap_normalise::first_not_finite(xs) {
        Some(place) => not_finite(place as u32),
        None => other,
    }
}

// The coefficients of the numbers: all of them, or none is written. Only where one is turned down
// is it asked whether all are finite.
// Stays: a match where `map_err` would take a closure with a contract, since two edits fall at its Err arm.
fn settle<R: Fn(u32) -> Refusal>(
    xs: &[f64],
    f: u32,
    divisor: f64,
    not_finite: R,
    coefficients: &mut [i32],
) -> Result<Report, Refusal>
    requires sizes { (f ≤ 31) × (length xs.now ≤ 256) × (length xs.now ≤ length coefficients.old) }
    requires callable { R.IsAlwaysCallable not_finite }
    ensures result_value { (rule : ℕ) → Numbered (R.post not_finite) rule
        → answer_of result ≡ checked rule f divisor xs.now }
    ensures coefficients_after { (rule : ℕ) → Numbered (R.post not_finite) rule
        → coefficients.new ≡ filled (checked rule f divisor xs.now) (coefficients_of f xs.now) coefficients.old }
{
    let n = xs.len();
    let mut buffer = [0i32; 256];
    match round_all(xs, f, divisor, &mut buffer) {
        Ok(report) => {
            sequence::copy(&buffer, n, coefficients);
            Ok(report)
        }
        Err(refusal) => Err(first_refusal(xs, not_finite, refusal)),
    }
}

// Normalised mode: each tap is divided by the sum, and the quotients are rounded. A sum that is
// finite has only finite taps; one that is not usable may have a tap that is not finite.
fn round_quotients(taps: &[f64], f: u32, coefficients: &mut [i32]) -> Result<Report, Refusal>
    requires { (f ≤ 31) × (length taps.now ≤ 256) × (length taps.now ≤ length coefficients.old) }
    ensures result_value { answer_of result ≡ settled f true taps.now }
    ensures coefficients_after { coefficients.new
        ≡ filled (settled f true taps.now) (coefficients_of f (used true taps.now)) coefficients.old }
{
    let sum = tap_normalise::total(taps);
    if !tap_normalise::is_usable(sum) {
        let no_sum = Refusal::NotNormalisable(0);
        return Err(first_refusal(taps, Refusal::TapNotFinite, no_sum));
    }
    let mut table = [0.0f64; 256];
    tap_normalise::divide(taps, sum, &mut table);
    let n = taps.len();
    settle(&table[..n], f, sum, Refusal::NotNormalisable, coefficients)
}

// The taps times 2^F, or in normalised mode their quotients by the sum of the taps, rounded to
// whole coefficients. The lent table is written only where all of them are accepted.
// Stays: `normalised` is a flag, as C hands the mode of document 01 over and `TapsRounded` has it.
pub fn round_taps(
    taps: &[f64],
    fraction_bits: u32,
    normalised: bool,
    coefficients: &mut [i32],
) -> Result<Report, Refusal>
    ensures { TapsRounded fraction_bits normalised taps.now coefficients.old (answer_of result) coefficients.new }
{
    let n = taps.len();
    if n == 0 {
        return Err(Refusal::NoTaps);
    }
    if n > 256 {
        return Err(Refusal::TooManyTaps);
    }
    if coefficients.len() < n {
        return Err(Refusal::ShortTable);
    }
    if fraction_bits > 31 {
        return Err(Refusal::FractionBits);
    }
    if normalised {
        round_quotients(taps, fraction_bits, coefficients)
    } else {
        settle(
            taps,
            fraction_bits,
            1.0,
            Refusal::TapNotFinite,
            coefficients,
        )
    }
}
