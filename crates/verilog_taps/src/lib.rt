// The ports and the assigns of taps, written into an area that may have room for just these bytes.
#![tactic(auto)]

ghost use Rattle.std.specs.Prelude.{◌+◌, ◌≤◌, length};
ghost use Rattle.network.specs.Rows.{tap_rows_of, tap_table};
ghost use Rattle.text.specs.Lines.{lines_from, numbered_from};
ghost use Rattle.text.specs.Inner.{WroteAll};
ghost use Rattle.verilog_text.specs.Text.{port, tap_assign};
ghost use Rattle.verilog_taps.specs.Inner.{product_of, product_bytes};

use network::{NetworkTables, TapRow};
use text::Writer;

// The product of a tap, between the text before its row and that after its shift.
fn put_product(to: &mut Writer, k: u32, before: &[u8], tap: TapRow, after: &[u8])
    requires { to.old.at + product_bytes k before.now tap after.now ≤ length to.old.area.now }
    ensures { WroteAll to.old (product_of k before.now tap after.now) to.new }
{
    to.put_with(b"assign t", k);
    to.put_with(before, tap.row);
    to.put_with(b" <<< ", tap.shift);
    to.put(after);
}

fn put_tap_line(to: &mut Writer, k: u32, tap: TapRow)
    requires { to.old.at + length (tap_assign k tap) ≤ length to.old.area.now }
    ensures { WroteAll to.old (tap_assign k tap) to.new }
{
    match tap.sign {
        network::PLUS => put_product(to, k, b" = n", tap, b";\n"),
        network::MINUS => put_product(to, k, b" = -(n", tap, b");\n"),
        _ => {
            to.put_with(b"assign t", k);
            to.put(b" = 0;\n");
        }
    }
}

// The ports of m taps.
// Stays: shared with `put_wires`, it would take two texts, and a line as a function in its contract.
pub fn put_ports(to: &mut Writer, m: usize)
    requires { (m ≤ 256) × (to.old.at + length (numbered_from port 0 m) ≤ length to.old.area.now) }
    ensures { WroteAll to.old (numbered_from port 0 m) to.new }
{
    for k in 0..m {
        to.put_with(b", output signed [63:0] t", k as u32);
    }
}

// The assigns of the taps, by number.
pub fn put_tap_lines(to: &mut Writer, network: NetworkTables)
    requires within_bounds { (tap_table ≤ length network.taps.now) × (network.tap_count ≤ 256) }
    requires room { to.old.at + length (lines_from tap_assign 0 (tap_rows_of network.taps.now network.tap_count)) ≤ length to.old.area.now }
    ensures { WroteAll to.old (lines_from tap_assign 0 (tap_rows_of network.entry.taps.now network.entry.tap_count)) to.new }
{
    for k in 0..network.tap_count {
        put_tap_line(to, k as u32, network::read_tap_row(network.taps, k));
    }
}
