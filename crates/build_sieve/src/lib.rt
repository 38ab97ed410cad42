// A sieve for the search of step 2: which sums and differences may have a row of their odd part.
#![tactic(auto)]

mod leading;

ghost use Rattle.std.specs.Prelude.{◌≡◌, ℕ, ◌+◌, ◌*◌, ◌/◌, ◌%◌, ◌^◌, ◌≤◌, ◌<◌, leb, length, get_or};
ghost use Rattle.network.specs.Rows.{row_words};
ghost use Rattle.build_index.specs.Inner.{value_at};
ghost use Rattle.build_sieve.specs.Inner.{shift_for_of, SieveOf, SieveRead, SameSieve, mark_at, InMarks, Cells};

use build_index::IndexedRows;
use leading::{cell_between, cell_of};

// The values of the rows, and a mark for the cell of each.
#[derive(Drop)]
pub struct Sieve<'a> {
    pub values: &'a mut [u32],
    pub marks: &'a mut [u8],
}

// The same, as they are read.
#[derive(Clone, Copy)]
pub struct SieveTables<'a> {
    pub values: &'a [u32],
    pub marks: &'a [u8],
}

// The cells of the sums and of the differences of a number and some values.
#[derive(Drop)]
pub struct Pairs {
    pub sums: [u32; 32],
    pub differences: [u32; 32],
}

// The number of a cell's places that are dropped, with m marks.
#[tactic(auto, unfolding(crate::specs::Inner::shift_for_of))]
pub fn shift_for(m: usize) -> u32
    ensures { result ≡ shift_for_of m }
{
    if m < 8192 {
        21
    } else if m < 32768 {
        19
    } else {
        17
    }
}

// The mark of row i: the lower the row, the higher. A cell has that of its lowest row.
fn mark_of(i: usize) -> u8
    requires { i < 4096 }
    ensures { 128 ≤ result * (i + 1) }
{
    (127 / ((i as u32) + 1) + 1) as u8
}

// Whether a mark may be that of a row below m.
pub fn may_be_below(m: usize, mark: u8) -> bool
    requires { m ≤ 4096 }
    ensures { result ≡ leb 128 (mark * m) }
{
    (mark as usize) * m >= 128
}

impl<'a> Sieve<'a> {
    // This sieve, as it is read.
    pub fn read(&self) -> SieveTables<'_>
        ensures { SieveRead self.now result }
    {
        SieveTables {
            values: self.values,
            marks: self.marks,
        }
    }

    // The rows from one number on join the sieve.
    pub fn extend(&mut self, rows: &IndexedRows, from: usize)
        requires sieve { SieveOf rows.now.table.now self.old.values.now self.old.marks.now from }
        requires room { (from ≤ rows.now.count) × (rows.now.count + 7 ≤ length self.old.values.now) × (row_words * rows.now.count ≤ length rows.now.table.now) × (rows.now.count ≤ 4096) }
        requires by_index { (i : ℕ) → i < rows.now.count → value_at rows.now.table.now i < 2 ^ 31 }
        ensures sieve { SieveOf rows.now.table.now self.new.values.now self.new.marks.now rows.now.count }
        ensures lent { SameSieve self.old self.new }
    {
        let shift = shift_for(self.marks.len());
        for i in from..rows.count {
            let value = rows.value(i);
            self.values[i] = value;
            let cell = cell_of(value, shift) as usize;
            self.marks[cell] = self.marks[cell].max(mark_of(i));
        }
    }
}

impl<'a> SieveTables<'a> {
    // The cells of the sums and of the differences of v and so many values, from one on.
    pub fn fill(&self, at: usize, count: usize, v: u32, shift: u32, pairs: &mut Pairs)
        requires sizes { (shift < 32) × (v < 2 ^ 31) × (count ≤ 32) × (at + count ≤ length self.now.values.now) }
        requires small { (i : ℕ) → get_or self.now.values.now i 0 < 2 ^ 31 }
        ensures { Cells self.now.values.now at count v shift pairs.new }
    {
        for j in 0..count {
            let value = self.values[at + j];
            pairs.sums[j] = cell_of((v + value) / 2, shift);
            pairs.differences[j] = cell_between(v, value, shift);
        }
    }

    // The marks of the eight cells from place k on in one: no less than any of them.
    pub fn joined(&self, cells: &[u32; 32], k: usize) -> u8
        requires { (k + 8 ≤ 32) × InMarks self.now.marks.now cells.now (k + 8) }
        ensures { (i : ℕ) → i < 8 → mark_at self.now.marks.now cells.now (k + i) ≤ result }
    {
        let mut all: u8 = 0;
        for i in 0..8 {
            all |= self.marks[cells[k + i] as usize];
        }
        all
    }

    // The eight cells from place k on as a mask: digit i is 1 where cell k + i may have the mark of a
    // row below m.
    pub fn marked(&self, cells: &[u32; 32], k: usize, m: usize) -> u32
        requires { (k + 8 ≤ 32) × InMarks self.now.marks.now cells.now (k + 8) × (m ≤ 4096) }
        ensures { (result < 2 ^ 8) × ((i : ℕ) → i < 8 → result / 2 ^ i % 2 ≡ 0 → mark_at self.now.marks.now cells.now (k + i) * m < 128) }
    {
        let mut mask: u32 = 0;
        for i in (0..8).rev() {
            let mark = self.marks[cells[k + i] as usize];
            mask = 2 * mask + may_be_below(m, mark) as u32;
        }
        mask
    }
}
