// Normalised mode: the sum of the taps, and their quotients by it.
#![tactic(auto)]

ghost use Rattle.std.specs.Prelude.{◌≡◌, not, ◌++◌, ◌≤◌, length, drop, Float};
ghost use Rattle.refusal.specs.Answer.{lowest, found_at};
ghost use Rattle.tap.specs.Rounding.{finite};
ghost use Rattle.tap_normalise.specs.Normalised.{sum_of, unusable, quotients};

// The place of the first number that is not finite.
pub fn first_not_finite(xs: &[f64]) -> Option<usize>
    ensures { found_at result ≡ lowest (λ (x : Float). not (finite x)) xs.now }
{
    xs.iter().position(|x| !tap::finite::is_finite(*x))
}

// The taps added in order, from +0: `sum` would start from -0.
pub fn total(taps: &[f64]) -> f64
    ensures { result ≡ sum_of taps.now }
{
    taps.iter().fold(0.0, |sum, tap| sum + *tap)
}

// Whether taps can be divided by the sum.
pub fn is_usable(sum: f64) -> bool
    ensures { result ≡ not (unusable sum) }
{
    tap::finite::is_finite(sum) && sum != 0.0
}

// Each tap divided by the sum, into the front of the table.
pub fn divide(taps: &[f64], sum: f64, table: &mut [f64])
    requires { length taps.now ≤ length table.old }
    ensures { table.new ≡ quotients sum taps.now ++ drop (length taps.now) table.old }
{
    for (i, tap) in taps.iter().enumerate() {
        table[i] = *tap / sum;
    }
}
