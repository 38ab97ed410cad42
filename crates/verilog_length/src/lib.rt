// How many bytes the text of a network has, counted before any is written. The numbers of rows and taps,
// which count up from 0, are counted by themselves, and all else beside them.
#![tactic(auto)]

ghost use Rattle.std.specs.Prelude.{◌≡◌, ◌*◌, ◌≤◌, length};
ghost use Rattle.network.specs.Rows.{rows_of, tap_rows_of, network_of};
ghost use Rattle.network.specs.Inner.{WithinBounds};
ghost use Rattle.text.specs.Numbers.{decimal};
ghost use Rattle.text.specs.Lines.{lines_from, numbered_from};
ghost use Rattle.text.specs.Inner.{number_bytes};
ghost use Rattle.verilog_text.specs.Text.{row_assign, tap_assign, verilog_text_of};
ghost use Rattle.verilog_length.specs.Inner.{Beside, BesideAll, row_bytes_of, tap_bytes_of};

use network::{NetworkTables, Row, TapRow};
use text::digits;

// The digits of the numbers below n: all have one, those past 10 a second, and so on.
fn digits_below(n: usize) -> usize
    requires { n ≤ 4096 }
    ensures { (result ≡ length (numbered_from decimal 0 n)) × (result ≤ number_bytes * n) }
{
    n + n.saturating_sub(10) + n.saturating_sub(100) + n.saturating_sub(1000)
}

// The assign of row i, beside i.
fn row_bytes(i: u32, row: Row) -> usize
    ensures { Beside (row_assign i row) i row_bytes_of result }
{
    if i == 0 {
        return 14;
    }
    25 + digits(row.left) + digits(row.shift) + digits(row.right)
}

// The assigns of the rows, beside their numbers.
fn rows_bytes(network: NetworkTables) -> usize
    requires { WithinBounds network }
    ensures { let net = network.entry in
        BesideAll (lines_from row_assign 0 (rows_of net.rows.now net.row_count)) net.row_count (row_bytes_of * net.row_count) result }
{
    // Stays: a `sum` is proved by a list of its terms, which `Beside` gives only as a line less its number.
    let mut count: usize = 0;
    for i in 0..network.row_count {
        count += row_bytes(i as u32, network::read_row(network.rows, i));
    }
    count
}

// The assign of tap k, beside k.
fn tap_bytes(k: u32, tap: TapRow) -> usize
    ensures { Beside (tap_assign k tap) k tap_bytes_of result }
{
    match tap.sign {
        network::PLUS => 19 + digits(tap.row) + digits(tap.shift),
        network::MINUS => 22 + digits(tap.row) + digits(tap.shift),
        _ => 14,
    }
}

// The assigns of the taps, beside their numbers.
// Stays: one loop for rows and taps would take a closure, whose contract is longer than the loop.
fn taps_bytes(network: NetworkTables) -> usize
    requires { WithinBounds network }
    ensures { let net = network.entry in
        BesideAll (lines_from tap_assign 0 (tap_rows_of net.taps.now net.tap_count)) net.tap_count (tap_bytes_of * net.tap_count) result }
{
    // Stays: a `sum` is proved by a list of its terms, which `Beside` gives only as a line less its number.
    let mut count: usize = 0;
    for k in 0..network.tap_count {
        count += tap_bytes(k as u32, network::read_tap_row(network.taps, k));
    }
    count
}

// The whole text. Beside ports and wires the module line has 40 bytes and the last line 10; a port has
// 24 beside its number, a wire 22.
pub fn text_bytes(network: NetworkTables) -> usize
    requires { WithinBounds network }
    ensures { let net = network.entry in
        result ≡ length (verilog_text_of (network_of net.rows.now net.row_count net.taps.now net.tap_count)) }
{
    let (n, m) = (network.row_count, network.tap_count);
    let ports = 24 * m + 2 * digits_below(m);
    let wires = 22 * n + 2 * digits_below(n);
    50 + ports + wires + rows_bytes(network) + taps_bytes(network)
}
