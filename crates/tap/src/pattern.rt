// A float by its bits.
ghost use Rattle.std.specs.Prelude.{◌≡◌};
ghost use Rattle.std.specs.Float.Ieee as Ieee;
ghost use Rattle.std.specs.Float.{binary64};

// The float of a bit pattern. There is one not-a-number, which every pattern of one stands for.
// Stays: `f64::from_bits` alone requires here that the pattern is not one of a not-a-number.
pub fn of_bits(bits: u64) -> f64
    ensures { result ≡ Ieee.of_bits binary64 bits }
{
    if (bits & 0x7fff_ffff_ffff_ffff) > 0x7ff0_0000_0000_0000 {
        f64::NAN
    } else {
        f64::from_bits(bits)
    }
}
