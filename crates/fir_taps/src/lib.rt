// Rounding taps: functions for C, declared in include/fir.h.
#![tactic(auto)]

ghost use Rattle.std.specs.Prelude.{◌≡◌};
ghost use Rattle.tap.specs.Rounding as Tap;
ghost use Rattle.fir_taps.specs.Rounding.{tap_word_of, TapRoundedWord, TapsRoundedWord};

use fir_words::refusal_word;
use tap::RoundedTap;
use tap::pattern::of_bits;

// N's 32 bits, or a refusal number in the upper half.
// Stays: no `refusal_word`, which has the place too, and `tap_word_of` has none; an edit names the line.
fn tap_word(tap: RoundedTap) -> u64
    ensures { result ≡ tap_word_of (Tap.answer_of tap) }
{
    match tap {
        RoundedTap::Exact(n) => n.cast_unsigned() as u64,
        RoundedTap::Rounded(n, _) => n.cast_unsigned() as u64,
        RoundedTap::Refused(refusal) => (refusal::number(refusal) as u64) * 0x1_0000_0000,
    }
}

// One tap by its 64 bits.
#[unsafe(no_mangle)]
pub extern "C" fn fir_round_tap(bits: u64, fraction_bits: u32) -> u64
    ensures { TapRoundedWord fraction_bits bits result }
{
    tap_word(tap::round_tap(of_bits(bits), fraction_bits))
}

// A set of taps; normalised where the third argument is not 0. The divisor and the leftover, two
// doubles in C, are handled by their bits: on a refusal a not-a-number keeps its own.
#[unsafe(no_mangle)]
pub extern "C" fn fir_round_taps(
    taps: &[f64],
    fraction_bits: u32,
    normalised: u32,
    coefficients: &mut [i32],
    divisor: &mut u64,
    leftover: &mut u64,
) -> u64
    ensures { TapsRoundedWord fraction_bits normalised taps.now coefficients.old divisor.old leftover.old
        result coefficients.new divisor.new leftover.new }
{
    let answer = tap_set::round_taps(taps, fraction_bits, normalised != 0, coefficients);
    match answer {
        Err(refusal) => refusal_word(refusal),
        Ok(report) => {
            *divisor = f64::to_bits(report.divisor);
            *leftover = f64::to_bits(report.leftover);
            0
        }
    }
}
