// The words of a mask table: one cell at a time written into them and read from them, and the cells of
// two tables that overlap.
#![tactic(auto)]

ghost use Rattle.std.specs.Prelude.{◌≡◌, [], ◌≢◌, ℕ, ◌+◌, ◌*◌, ◌/◌, ◌%◌, ◌^◌, ◌≤◌, ◌<◌, length, get_or};
ghost use Rattle.refusal.specs.Answer.{found_at};
ghost use Rattle.plane_masks.specs.Planes.{cell_mask, plane_words_of};
ghost use Rattle.plane_masks.specs.Grid.{overlap_cell};
ghost use Rattle.plane_words.specs.Inner.{with_cell, both_word};

use plane_masks::MaskTable;

// A place where x has a one.
fn some_place(x: u32) -> usize
    requires { x ≢ 0 }
    ensures { (result < 32) × (x / 2 ^ result % 2 ≡ 1) }
{
    x.trailing_zeros() as usize
}

// The mask that a table holds for cell c: from plane 31 down.
pub fn read_cell(table: &[u64], c: usize) -> u32
    requires { (128 ≤ length table.now) × (c < 256) }
    ensures { result ≡ cell_mask table.now c }
{
    let j = c / 64;
    let place = c % 64;
    let mut mask: u32 = 0;
    for p in (0..32usize).rev() {
        let bit = (table[4 * p + j] >> place) % 2;
        mask = 2 * mask + (bit as u32);
    }
    mask
}

// The words of no cells.
#[tactic(auto, using(crate::proofs::Empty::empty_words))]
pub fn clear(table: &mut MaskTable)
    ensures { table.new ≡ plane_words_of [] }
{
    table.fill(0);
}

// Writes the mask of cell c into a table that has nothing from cell c on. Only words with a one of it
// are touched.
pub fn write_cell(table: &mut [u64], c: usize, mask: u32)
    requires in_bounds { (128 ≤ length table.old) × (c < 256) }
    requires by_index { (p : ℕ) → p < 32 → get_or table.old (4 * p + c / 64) 0 < 2 ^ (c % 64) }
    ensures { table.new ≡ with_cell mask c table.old }
{
    let j = c / 64;
    let bit: u64 = 1u64 << (c % 64);
    let mut rest = mask;
    while rest != 0 {
        let p = some_place(rest);
        table[4 * p + j] += bit;
        rest -= 1u32 << p;
    }
}

// The cells of word j that overlap in any plane.
fn overlap_word(plus: &[u64], minus: &[u64], j: usize) -> u64
    requires { (128 ≤ length plus.now) × (128 ≤ length minus.now) × (j < 4) }
    ensures { result ≡ both_word 32 plus.now minus.now j }
{
    let mut both: u64 = 0;
    for p in 0..32usize {
        both |= plus[4 * p + j] & minus[4 * p + j];
    }
    both
}

// The lowest of the cells that overlaps in any plane.
// Stays: two tables are no plainer as a struct, since each is also read and written by itself.
pub fn first_overlap(plus: &[u64], minus: &[u64], cells: usize) -> Option<usize>
    requires { (128 ≤ length plus.now) × (128 ≤ length minus.now) × (cells ≤ 256) }
    ensures { found_at result ≡ overlap_cell cells plus.now minus.now }
{
    for j in 0..cells.div_ceil(64) {
        let both = overlap_word(plus, minus, j);
        if both != 0 {
            let c = 64 * j + (both.trailing_zeros() as usize);
            if c < cells {
                return Some(c);
            }
            return None;
        }
    }
    None
}
