// The tables of a running call: its coefficients in offset binary, with four zeros before and after
// them, and the offsets that samples in offset binary leave in the registers.
#![tactic(auto)]

ghost use Rattle.std.specs.Prelude.{◌≡◌, ℕ, ◌^◌, ◌<◌, ◌≤◌, pos, get_or, replicate};
ghost use Rattle.run_tables.specs.Inner.{coefficients_in, Padded, StoredZeroFrom, OffsetsOf};

mod width;

use run_products::{offset_below, offset_coefficient};
pub use width::used;

// The first `width` coefficients and registers are in use.
#[derive(Clone, Copy, Drop)]
pub struct Tables<'a> {
    pub width: usize,
    pub stored: &'a [u64; 264],
    pub offsets: &'a [u64; 265],
    pub ghost width_to: { width ≤ 256 },
    pub ghost padded: { Padded stored.now },
    pub ghost offset: { OffsetsOf stored.now offsets.now },
}

// Fills a table that holds zeros in offset binary; from w on, coefficients are 0.
pub fn fill_coefficients(h: &[i32; 256], w: usize, stored: &mut [u64; 264])
    requires width_to { w ≤ 256 }
    requires zeros { stored.old ≡ replicate 264 (2 ^ 31) }
    requires zero_from { (k : ℕ) → w ≤ k → get_or h.now k (pos 0) ≡ pos 0 }
    ensures padded { Padded stored.new }
    ensures coefficients { coefficients_in stored.new ≡ h.now }
    ensures zero_from { StoredZeroFrom w stored.new }
{
    for k in 0..w {
        stored[k + 4] = offset_coefficient(h[k]);
    }
}

// Fills a table of zeros with the offsets, from the last place in use to the first.
pub fn fill_offsets(stored: &[u64; 264], w: usize, offsets: &mut [u64; 265])
    requires width_to { w ≤ 256 }
    requires zeros { offsets.old ≡ replicate 265 0 }
    requires zero_from { StoredZeroFrom w stored.now }
    ensures { OffsetsOf stored.now offsets.new }
{
    for j in (0..w + 4).rev() {
        offsets[j] = offset_below(offsets[j + 1], stored[j]);
    }
}
