// A writer of text into a lent area.
#![tactic(auto)]

ghost use Rattle.std.specs.Prelude.{◌≡◌, ◌∷◌, [], ◌++◌, ◌+◌, ◌≤◌, ◌<◌, length};
ghost use Rattle.text.specs.Numbers.{decimal, integer};
ghost use Rattle.text.specs.Inner.{Wrote, WroteAll, Stored, pair_of, number_bytes, integer_bytes};

// A lent area, and how many of its bytes are written.
#[derive(Drop)]
pub struct Writer<'a> {
    pub area: &'a mut [u8],
    pub at: usize,
}

impl<'a> Writer<'a> {
    pub fn put(&mut self, text: &[u8])
        requires { self.old.at + length text.now ≤ length self.old.area.now }
        ensures { Wrote self.old text.now (length text.now) self.new }
    {
        // Stays: by copy_from_slice or put_byte the longest Verilog text takes 144 or 409 us, not 121.
        for i in 0..text.len() {
            self.area[self.at + i] = text[i];
        }
        self.at += text.len();
    }

    pub fn put_byte(&mut self, b: u8)
        requires { self.old.at + 1 ≤ length self.old.area.now }
        ensures { Wrote self.old (b ∷ []) 1 self.new }
    {
        self.area[self.at] = b;
        self.at += 1;
    }

    // n in decimal, where there may be room for just its digits.
    pub fn put_decimal(&mut self, n: u32)
        requires { self.old.at + length (decimal n) ≤ length self.old.area.now }
        ensures { WroteAll self.old (decimal n) self.new }
    {
        self.at = decimal_at(self.area, self.at, n);
    }

    // A text, and n in decimal, where there may be room for just these bytes.
    pub fn put_with(&mut self, text: &[u8], n: u32)
        requires { self.old.at + (length text.now + length (decimal n)) ≤ length self.old.area.now }
        ensures put_all { WroteAll self.old (text.now ++ decimal n) self.new }
        ensures value { self.new.at ≡ self.old.at + (length text.now + length (decimal n)) }
    {
        self.put(text);
        self.put_decimal(n);
    }

    // n in decimal.
    pub fn put_number(&mut self, n: u32)
        requires { self.old.at + number_bytes ≤ length self.old.area.now }
        ensures { Wrote self.old (decimal n) number_bytes self.new }
    {
        self.put_decimal(n);
    }

    // n in decimal, after `-` where it is negative.
    pub fn put_integer(&mut self, n: i32)
        requires { self.old.at + integer_bytes ≤ length self.old.area.now }
        ensures { Wrote self.old (integer n) integer_bytes self.new }
    {
        if n < 0 {
            self.put_byte(b'-');
        }
        self.put_number(n.unsigned_abs());
    }
}

// What follows stores from index `at` of an area on, and answers the index past the bytes.
// Stays: (area, at) here: by methods that call each other on a Writer the longest Verilog text takes 230 us, not 121.

// Two digits: n in decimal, after a zero where it is below 10.
fn pair_at(area: &mut [u8], at: usize, n: u32) -> usize
    requires { (n < 100) × (at + 2 ≤ length area.old) }
    ensures { Stored area.old at (pair_of n) area.new result }
{
    area[at] = b'0' + (n / 10) as u8;
    area[at + 1] = b'0' + (n % 10) as u8;
    at + 2
}

// A number below 100 in decimal.
fn small_at(area: &mut [u8], at: usize, n: u32) -> usize
    requires { (n < 100) × (at + length (decimal n) ≤ length area.old) }
    ensures { Stored area.old at (decimal n) area.new result }
{
    if n < 10 {
        area[at] = b'0' + n as u8;
        return at + 1;
    }
    pair_at(area, at, n)
}

// n in decimal, where there may be room for just its digits.
fn decimal_at(area: &mut [u8], at: usize, n: u32) -> usize
    requires { at + length (decimal n) ≤ length area.old }
    ensures { Stored area.old at (decimal n) area.new result }
{
    if n < 100 {
        return small_at(area, at, n);
    }
    if n < 10000 {
        let a = small_at(area, at, n / 100);
        return pair_at(area, a, n % 100);
    }
    let a = decimal_at(area, at, n / 10000);
    let b = pair_at(area, a, n / 100 % 100);
    pair_at(area, b, n % 100)
}

// The number of decimal digits that n has.
// Stays: by comparisons, since an edit of must-fail/ falls at one of them, which std's ilog10 has none of.
pub fn digits(n: u32) -> usize
    ensures { (result ≡ length (decimal n)) × (result ≤ number_bytes) }
{
    if n < 10000 {
        return 1 + (n > 9) as usize + (n > 99) as usize + (n > 999) as usize;
    }
    4 + digits(n / 10000)
}
