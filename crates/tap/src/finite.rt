// Whether a float is a number.
ghost use Rattle.std.specs.Prelude.{◌≡◌};
ghost use Rattle.tap.specs.Rounding.{finite};

// Neither a not-a-number nor an infinity, by the bits: the exponent's 11 bits are not all ones.
// Stays: document 01 has non-finite results caught by their bits, and `f64::is_finite` subtracts.
pub fn is_finite(x: f64) -> bool
    ensures { result ≡ finite x }
{
    if x.is_nan() {
        return false;
    }
    let bits = x.to_bits();
    bits / 0x10_0000_0000_0000 % 0x800 != 0x7ff
}
