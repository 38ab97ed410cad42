// Step 2 of building: the turns of the search that no right row goes with, by one pass over the right
// rows. Left row i at shift s is turn 32·i + s.
#![tactic(auto)]

ghost use Rattle.std.specs.Prelude.{◌≡◌, ◌⊎◌, ℕ, ◌+◌, ◌*◌, ◌/◌, ◌%◌, ◌^◌, ◌≤◌, ◌<◌, length, get_or};
ghost use Rattle.build_index.specs.Inner.{value_at, HasIndex};
ghost use Rattle.build_sieve.specs.Inner.{mark_at, InMarks};
ghost use Rattle.build_left_rows.specs.Inner.{NoTurn, NoLeft, Sifting, Passing, InBlock};

use build_index::IndexedRows;
use build_sieve::{Pairs, SieveTables};

// A pass over the right rows for a new row of value v.
#[derive(Drop)]
struct Pass<'a> {
    rows: &'a IndexedRows<'a>,
    sieve: &'a SieveTables<'a>,
    v: u32,
}

// The turn in which x is 2^s·left, and m where there is none below m.
fn lower(rows: &IndexedRows, m: usize, x: u32) -> usize
    requires { HasIndex rows.now × (m ≤ 32 * rows.now.count) × ((i : ℕ) → i < rows.now.count → value_at rows.now.table.now i % 2 ≡ 1) × (0 < x) }
    ensures { (result ≤ m) × NoTurn rows.now.table.now result x }
{
    let shift = x.trailing_zeros();
    match rows.find(x >> shift) {
        Some(k) => m.min(32 * k + (shift as usize)),
        None => m,
    }
}

// How many of so many rows are passed together: 32, or the last of them and zeros up to a multiple of 8.
fn stretch(rows: usize) -> usize
    requires { (0 < rows) × (rows ≤ 4096) }
    ensures { (result ≤ 32) × (result % 8 ≡ 0) × (result ≤ rows + 7) × (rows ≤ result ⊎ (result ≡ 32)) }
{
    ((rows + 7) / 8 * 8).min(32)
}

impl<'a> Pass<'a> {
    // No turn below the result is the number that belongs to one of the right rows that a mask of eight
    // names, the first of them at a place.
    fn lower_named<F: Fn(u32) -> u32>(&self, m: usize, at: usize, mask: u32, number: F) -> usize
        requires passing { Passing self.now × (m ≤ 32 * self.now.rows.now.count) }
        requires named { (mask < 2 ^ 8) × (at + 8 ≤ length self.now.sieve.now.values.now) }
        requires callable { (i : ℕ) → F.pre number (get_or self.now.sieve.now.values.now i 0) }
        requires positive { (i x : ℕ) → F.post number (get_or self.now.sieve.now.values.now i 0) x → 0 < x }
        ensures { (result ≤ m) × ((i : ℕ) → mask / 2 ^ i % 2 ≡ 1 → (x : ℕ) × F.post number (get_or self.now.sieve.now.values.now (at + i) 0) x × NoTurn self.now.rows.now.table.now result x) }
    {
        let mut low = m;
        let mut rest = mask;
        let mut j = at;
        while rest != 0 {
            let zeros = rest.trailing_zeros();
            j += zeros as usize;
            low = lower(self.rows, low, number(self.sieve.values[j]));
            rest = (rest >> zeros) / 2;
            j += 1;
        }
        low
    }

    // The eight cells from place k on as a mask: digit i is 1 where cell k + i may have the mark of a
    // row that has a turn below m. `all` has their marks in one: most often none of them counts.
    fn marked(&self, m: usize, cells: &[u32; 32], k: usize, all: u8) -> u32
        requires cells { (k + 8 ≤ 32) × InMarks self.now.sieve.now.marks.now cells.now (k + 8) × (m ≤ 32 * 4096) }
        requires in_one { (i : ℕ) → i < 8 → mark_at self.now.sieve.now.marks.now cells.now (k + i) ≤ all }
        ensures { (result < 2 ^ 8) × ((i : ℕ) → i < 8 → result / 2 ^ i % 2 ≡ 0 → mark_at self.now.sieve.now.marks.now cells.now (k + i) * ((m + 31) / 32) < 128) }
    {
        let rows = (m + 31) / 32;
        if !build_sieve::may_be_below(rows, all) {
            return 0;
        }
        self.sieve.marked(cells, k, rows)
    }

    // No turn below the result makes v with one of eight right rows, from one on. Most often none of
    // their cells has a mark that counts.
    fn lower_eight(&self, m: usize, at: usize, pairs: &Pairs, k: usize) -> usize
        requires passing { Passing self.now × (m ≤ 32 * self.now.rows.now.count) }
        requires in_block { InBlock self.now.sieve.now at (k + 8) self.now.v pairs.now }
        ensures { (result ≤ m) × ((i : ℕ) → i < 8 → at + (k + i) < self.now.rows.now.count → NoLeft self.now.rows.now.table.now result self.now.v (value_at self.now.rows.now.table.now (at + (k + i)))) }
    {
        let v = self.v;
        let sum = self.sieve.joined(&pairs.sums, k);
        let difference = self.sieve.joined(&pairs.differences, k);
        // Stays: (m + 31) / 32 for m.div_ceil(32), which was slower: 3 % more instructions for building.
        if !build_sieve::may_be_below((m + 31) / 32, sum | difference) {
            return m;
        }
        let sums = self.marked(m, &pairs.sums, k, sum);
        let low = self.lower_named(m, at + k, sums, |r| v + r);
        let differences = self.marked(low, &pairs.differences, k, difference);
        self.lower_named(low, at + k, differences, |r| v.abs_diff(r))
    }

    // The same for a stretch of right rows, eight by eight.
    fn lower_block(&self, m: usize, at: usize, count: usize, pairs: &Pairs) -> usize
        requires passing { Passing self.now × (m ≤ 32 * self.now.rows.now.count) }
        requires in_block { InBlock self.now.sieve.now at count self.now.v pairs.now × (count % 8 ≡ 0) }
        ensures { (result ≤ m) × ((i : ℕ) → i < count → at + i < self.now.rows.now.count → NoLeft self.now.rows.now.table.now result self.now.v (value_at self.now.rows.now.table.now (at + i))) }
    {
        let mut low = m;
        for eight in 0..count / 8 {
            low = self.lower_eight(low, at, pairs, 8 * eight);
        }
        low
    }
}

// No turn below the result makes v with any right row. The pass is cut short, with 0, where an early
// turn may: then the search itself comes there sooner.
pub fn first_turn<'a>(rows: &'a IndexedRows<'a>, sieve: &'a SieveTables<'a>, v: u32) -> usize
    requires { Sifting rows.now sieve.now v }
    ensures { (result ≤ 32 * rows.now.count) × ((k : ℕ) → k < rows.now.count → NoLeft rows.now.table.now result v (value_at rows.now.table.now k)) }
{
    let pass = Pass { rows, sieve, v };
    let n = rows.count;
    let shift = build_sieve::shift_for(sieve.marks.len());
    let mut pairs = Pairs {
        sums: [0; 32],
        differences: [0; 32],
    };
    let mut low = 32 * n;
    for block in 0..(n + 31) / 32 {
        let at = 32 * block;
        let count = stretch(n - at);
        sieve.fill(at, count, v, shift, &mut pairs);
        low = pass.lower_block(low, at, count, &pairs);
        if low < (n - at) / 2 {
            return 0;
        }
    }
    low
}
