// Tap lines.
#![tactic(auto)]

ghost use Rattle.std.specs.Prelude.{◌+◌, ◌*◌, ◌≤◌, ◌<◌, length};
ghost use Rattle.network.specs.Rows.{tap_rows_of};
ghost use Rattle.text.specs.Lines.{lines_from};
ghost use Rattle.text.specs.Inner.{Wrote};
ghost use Rattle.sheet_lines.specs.Lines.{empty_tap_line_of, product_line_of, tap_line_text};
ghost use Rattle.sheet_lines.specs.Inner.{tap_line_bytes};
ghost use Rattle.sheet_taps.specs.Inner.{TapsIn, tap_line_of};

use network::TapRow;
use sheet_lines::{put_end, put_to_sign, put_to_value};
use text::Writer;

fn empty_tap_line(to: &mut Writer, i: u32)
    requires { to.old.at + tap_line_bytes ≤ length to.old.area.now }
    ensures { Wrote to.old (empty_tap_line_of i) tap_line_bytes to.new }
{
    to.put(b"tap,");
    put_to_value(to, i);
    to.put_byte(b'0');
    put_end(to);
}

fn product_line(to: &mut Writer, i: u32, tap: TapRow, value: i32)
    requires sign_bound { tap.sign < 256 }
    requires tap_line_bytes_in_bounds { to.old.at + tap_line_bytes ≤ length to.old.area.now }
    ensures { Wrote to.old (product_line_of i tap value) tap_line_bytes to.new }
{
    to.put(b"tap,");
    put_to_sign(to, i, tap.row, tap.shift, tap.sign);
    to.put_byte(b',');
    to.put_integer(value);
    put_end(to);
}

fn tap_line(to: &mut Writer, i: u32, tap: TapRow, value: i32)
    requires sign_bound { tap.sign < 256 }
    requires tap_line_bytes_in_bounds { to.old.at + tap_line_bytes ≤ length to.old.area.now }
    ensures { Wrote to.old (tap_line_text i tap value) tap_line_bytes to.new }
{
    if tap.sign == network::NONE {
        empty_tap_line(to, i);
    } else {
        product_line(to, i, tap, value);
    }
}

// The tap rows, by number, each with its coefficient.
pub fn tap_lines(to: &mut Writer, tap_rows: &[u32], coefficients: &[i32])
    requires taps_in { TapsIn tap_rows.now (length coefficients.now) }
    requires coefficients_in_bounds { to.old.at + tap_line_bytes * length coefficients.now ≤ length to.old.area.now }
    ensures { Wrote to.old
        (lines_from (tap_line_of coefficients.now) 0 (tap_rows_of tap_rows.now (length coefficients.now)))
        (tap_line_bytes * length coefficients.now) to.new }
{
    for (j, value) in coefficients.iter().enumerate() {
        tap_line(to, j as u32, network::read_tap_row(tap_rows, j), *value);
    }
}
