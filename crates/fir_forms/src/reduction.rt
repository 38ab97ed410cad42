// Reduction and trimming: functions for C, declared in include/fir.h.
ghost use Rattle.fir_forms.specs.Reduction.{ReducedToWord, TrimmedToWord};

// The sign, the odd part and the shift of a coefficient; 0 each for zero.
#[unsafe(no_mangle)]
pub extern "C" fn fir_reduce(n: i32, negative: &mut u32, odd_part: &mut u32, shift: &mut u32) -> u64
    ensures { ReducedToWord n result negative.new odd_part.new shift.new }
{
    let reduction = coefficient::reduce(n).unwrap_or_default();
    *negative = reduction.negative as u32;
    *odd_part = reduction.odd_part;
    *shift = reduction.shift;
    0
}

// Where the stretch from the first nonzero coefficient to the last starts and ends.
#[unsafe(no_mangle)]
pub extern "C" fn fir_trimmed(coefficients: &[i32], start: &mut usize, end: &mut usize) -> u64
    ensures { TrimmedToWord coefficients.now result start.new end.new }
{
    *start = coefficient::first_nonzero(coefficients);
    *end = coefficient::end_of_nonzero(coefficients);
    0
}
