// The wires and the assigns of rows, written into an area that may have room for just these bytes.
#![tactic(auto)]

ghost use Rattle.std.specs.Prelude.{◌+◌, ◌≤◌, ◌<◌, length};
ghost use Rattle.network.specs.Rows.{rows_of, row_table};
ghost use Rattle.text.specs.Numbers.{decimal};
ghost use Rattle.text.specs.Lines.{lines_from, numbered_from};
ghost use Rattle.text.specs.Inner.{WroteAll};
ghost use Rattle.verilog_text.specs.Text.{wire_line, row_assign};
ghost use Rattle.verilog_rows.specs.Inner.{operand, shifted_first, right_first, later_bytes};

use network::{NetworkTables, Row};
use text::Writer;

// `) + n`, or `) - n`, and the right row: a sign is stored as its character.
fn put_operand(to: &mut Writer, sign: u32, right: u32)
    requires { (sign < 256) × (to.old.at + (5 + length (decimal right)) ≤ length to.old.area.now) }
    ensures { WroteAll to.old (operand sign right) to.new }
{
    to.put(b") ");
    to.put_byte(sign as u8);
    to.put_with(b" n", right);
}

// A row of sign `+` or `-`, whose shifted row comes first.
fn put_shifted_first(to: &mut Writer, i: u32, row: Row)
    requires { (row.sign < 256) × (to.old.at + later_bytes i row ≤ length to.old.area.now) }
    ensures { WroteAll to.old (shifted_first i row) to.new }
{
    to.put_with(b"assign n", i);
    to.put_with(b" = (n", row.left);
    to.put_with(b" <<< ", row.shift);
    put_operand(to, row.sign, row.right);
    to.put(b";\n");
}

// An `r` row, whose right row comes first.
fn put_right_first(to: &mut Writer, i: u32, row: Row)
    requires { to.old.at + later_bytes i row ≤ length to.old.area.now }
    ensures { WroteAll to.old (right_first i row) to.new }
{
    to.put_with(b"assign n", i);
    to.put_with(b" = n", row.right);
    to.put_with(b" - (n", row.left);
    to.put_with(b" <<< ", row.shift);
    to.put(b");\n");
}

fn put_row_line(to: &mut Writer, i: u32, row: Row)
    requires { to.old.at + length (row_assign i row) ≤ length to.old.area.now }
    ensures { WroteAll to.old (row_assign i row) to.new }
{
    if i == 0 {
        to.put(b"assign n0 = x;\n");
        return;
    }
    match row.sign {
        network::PLUS | network::MINUS => put_shifted_first(to, i, row),
        _ => put_right_first(to, i, row),
    }
}

// The wires of n rows.
// Stays: shared with `put_ports`, it would take two texts, and a line as a function in its contract.
pub fn put_wires(to: &mut Writer, n: usize)
    requires { (n ≤ 4096) × (to.old.at + length (numbered_from wire_line 0 n) ≤ length to.old.area.now) }
    ensures { WroteAll to.old (numbered_from wire_line 0 n) to.new }
{
    for row in 0..n {
        to.put_with(b"wire signed [63:0] n", row as u32);
        to.put(b";\n");
    }
}

// The assigns of the rows, by number.
pub fn put_row_lines(to: &mut Writer, network: NetworkTables)
    requires within_bounds { (row_table ≤ length network.rows.now) × (network.row_count ≤ 4096) }
    requires room { to.old.at + length (lines_from row_assign 0 (rows_of network.rows.now network.row_count)) ≤ length to.old.area.now }
    ensures { WroteAll to.old (lines_from row_assign 0 (rows_of network.entry.rows.now network.entry.row_count)) to.new }
{
    for i in 0..network.row_count {
        put_row_line(to, i as u32, network::read_row(network.rows, i));
    }
}
