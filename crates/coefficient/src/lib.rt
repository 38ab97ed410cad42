// A coefficient's sign, odd part and shift, and a filter without the zeros at its ends.
#![tactic(auto)]

mod trim;

ghost use Rattle.coefficient.specs.Parts.{parts_in, ReducedTo};

pub use trim::{end_of_nonzero, first_nonzero, trimmed};

// The coefficient is sign * odd part * 2^shift.
#[derive(Clone, Copy, Default)]
pub struct Reduction {
    pub negative: bool,
    pub odd_part: u32,
    pub shift: u32,
}

// The sign, the odd part and the shift of n. Nothing is negated, so that -2^31 needs no case of its
// own.
#[tactic(auto, using(crate::proofs::Words::places_32, crate::proofs::Words::parts_32))]
pub fn reduce(n: i32) -> Option<Reduction>
    ensures { ReducedTo n (parts_in result) }
{
    if n == 0 {
        return None;
    }
    let size = n.unsigned_abs();
    let shift = size.trailing_zeros();
    let odd_part = size >> shift;
    Some(Reduction {
        negative: n < 0,
        odd_part,
        shift,
    })
}
