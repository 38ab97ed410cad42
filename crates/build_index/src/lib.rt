// Rows written to a table one after the other, and found again by their values: an index has the last
// row of each bucket of values, and for each row the one before it in its bucket.
#![tactic(auto)]

ghost use Rattle.std.specs.Prelude.{◌≡◌, [], ◌∷◌, ◌++◌, ◌+◌, ◌*◌, ◌≤◌, ◌<◌, length};
ghost use Rattle.refusal.specs.Answer.{nowhere, found_at};
ghost use Rattle.network.specs.Rows.{row_words, rows_of};
ghost use Rattle.build_steps.specs.Search.{row_with};
ghost use Rattle.build_index.specs.Inner.{value_at, bucket_of, IsIndexed, HasIndex, RowsRead, Grown};

use network::Row;

// Rows in a lent table, and an index by value over them.
#[derive(Drop)]
pub struct Rows<'a> {
    pub table: &'a mut [u32],
    // Stays: row k as k + 1 in 16 bits, and 0 for none: Option<NonZeroU16> takes 32, and memory is fixed.
    pub heads: &'a mut [u16],
    pub links: &'a mut [u16],
    pub count: usize,
}

// The same, as they are read.
#[derive(Clone, Copy)]
pub struct IndexedRows<'a> {
    pub table: &'a [u32],
    pub heads: &'a [u16],
    pub links: &'a [u16],
    pub count: usize,
}

// The bucket of a value, of m buckets: each digit of the value has a say in the upper half of the
// product, and the lower half parts values that stand evenly. Every bucket is in use where m is a
// power of 2.
fn bucket(x: u32, m: usize) -> usize
    requires { 0 < m }
    ensures { (result ≡ bucket_of m x) × (result < m) }
{
    let product = (x as u64) * 0x9e37_79b9;
    ((product ^ (product / 0x1_0000_0000)) as usize) & (m - 1)
}

impl<'a> IndexedRows<'a> {
    // The value of row i.
    pub fn value(&self, i: usize) -> u32
        requires { row_words * i + row_words ≤ length self.now.table.now }
        ensures { result ≡ value_at self.now.table.now i }
    {
        network::read_value(self.table, i)
    }

    // The row that has the value x.
    pub fn find(&self, x: u32) -> Option<usize>
        requires { HasIndex self.now }
        ensures { found_at result ≡ row_with (rows_of self.now.table.now self.now.count) x }
    {
        let h = bucket(x, self.heads.len());
        let mut p = self.heads[h] as usize;
        while p != 0 {
            let k = p - 1;
            if self.value(k) == x {
                return Some(k);
            }
            p = self.links[k] as usize;
        }
        None
    }
}

impl<'a> Rows<'a> {
    // These rows, as they are read.
    pub fn read(&self) -> IndexedRows<'_>
        ensures { RowsRead self.now result }
    {
        IndexedRows {
            table: self.table,
            heads: self.heads,
            links: self.links,
            count: self.count,
        }
    }

    // The value of row i.
    pub fn value(&self, i: usize) -> u32
        requires { row_words * i + row_words ≤ length self.now.table.now }
        ensures { result ≡ value_at self.now.table.now i }
    {
        self.read().value(i)
    }

    // The row that has the value x.
    pub fn find(&self, x: u32) -> Option<usize>
        requires { IsIndexed self.now }
        ensures { found_at result ≡ row_with (rows_of self.now.table.now self.now.count) x }
    {
        self.read().find(x)
    }

    // One row more, which joins the index. No row has its value yet.
    pub fn put(&mut self, row: Row)
        requires indexed { IsIndexed self.old }
        requires room { (self.old.count < 4096) × (row_words * self.old.count + row_words ≤ length self.old.table.now) × (self.old.count < length self.old.links.now) }
        requires new_value { row_with (rows_of self.old.table.now self.old.count) row.value ≡ nowhere }
        ensures grown { Grown self.old self.new (rows_of self.old.table.now self.old.count ++ (row ∷ [])) }
        ensures one_more { self.new.count ≡ self.old.count + 1 }
    {
        network::write_row(self.table, self.count, row);
        let own = bucket(row.value, self.heads.len());
        self.links[self.count] = self.heads[own];
        self.count += 1;
        self.heads[own] = self.count as u16;
    }
}
