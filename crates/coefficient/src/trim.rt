// The stretch of a filter from its first nonzero coefficient to its last.
ghost use Rattle.coefficient.specs.Stretch.{StretchStarts, StretchEnds, TrimmedTo};

// The place of the first nonzero coefficient, or 0 where there is none.
// Stays: no Option, since `StretchStarts` says 0 for none, and `fir_trimmed` stores it for C.
pub fn first_nonzero(h: &[i32]) -> usize
    ensures { StretchStarts h.now result }
{
    h.iter().position(|x| *x != 0).unwrap_or(0)
}

// The place after the last nonzero coefficient, or 0 where there is none.
// Stays: no Option, since `StretchEnds` says 0 for none, and `fir_trimmed` stores it for C.
pub fn end_of_nonzero(h: &[i32]) -> usize
    ensures { StretchEnds h.now result }
{
    h.iter().rposition(|x| *x != 0).map_or(0, |last| last + 1)
}

// The part of h from its first nonzero coefficient to its last, nothing copied. For all zeros or no
// coefficients it is the empty part at the start.
#[tactic(auto, using(crate::proofs::TheStretch::in_order, crate::proofs::TheStretch::end_within))]
pub fn trimmed(h: &[i32]) -> &[i32]
    ensures { TrimmedTo h.now h.entry.ref_ptr result.now result.ref_ptr }
{
    let start = first_nonzero(h);
    let end = end_of_nonzero(h);
    &h[start..end]
}
