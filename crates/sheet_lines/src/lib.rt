// The columns of a sheet, written: the header, and what the lines below it share.
#![tactic(auto)]

ghost use Rattle.std.specs.Prelude.{[], ◌∷◌, ◌++◌, ◌+◌, ◌≤◌, ◌<◌, length};
ghost use Rattle.text.specs.Numbers.{decimal};
ghost use Rattle.text.specs.Inner.{Wrote, number_bytes};
ghost use Rattle.sheet_lines.specs.Lines.{header};
ghost use Rattle.sheet_lines.specs.Inner.{to_sign, to_value, after_value, header_bytes, to_sign_bytes, to_value_bytes, after_value_bytes};

use text::Writer;

// The bytes of an area that has room for every sheet.
pub const AREA: usize = 262144;

pub fn put_header(to: &mut Writer)
    requires { to.old.at + header_bytes ≤ length to.old.area.now }
    ensures { Wrote to.old header header_bytes to.new }
{
    to.put(b"kind,number,left,shift,sign,right,value\r\n");
}

// n in decimal, and a comma.
pub fn put_field(to: &mut Writer, n: u32)
    requires { to.old.at + (number_bytes + 1) ≤ length to.old.area.now }
    ensures { Wrote to.old (decimal n ++ (44 ∷ [])) (number_bytes + 1) to.new }
{
    to.put_number(n);
    to.put_byte(b',');
}

// Number, left row, shift and sign.
pub fn put_to_sign(to: &mut Writer, number: u32, left: u32, shift: u32, sign: u32)
    requires { (sign < 256) × (to.old.at + to_sign_bytes ≤ length to.old.area.now) }
    ensures { Wrote to.old (to_sign number left shift sign []) to_sign_bytes to.new }
{
    put_field(to, number);
    put_field(to, left);
    put_field(to, shift);
    to.put(&[sign as u8, b',']);
}

// Number, and empty fields up to the value.
pub fn put_to_value(to: &mut Writer, number: u32)
    requires { to.old.at + to_value_bytes ≤ length to.old.area.now }
    ensures { Wrote to.old (to_value number []) to_value_bytes to.new }
{
    to.put_number(number);
    to.put(b",,,,,");
}

// The end of a line, after its value.
pub fn put_end(to: &mut Writer)
    requires { to.old.at + after_value_bytes ≤ length to.old.area.now }
    ensures { Wrote to.old after_value after_value_bytes to.new }
{
    to.put(b"\r\n");
}
