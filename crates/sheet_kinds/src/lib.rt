// The two kinds of sheet, of a network and of a refusal.
#![tactic(auto)]

mod adders;

ghost use Rattle.std.specs.Prelude.{◌+◌, ◌≤◌, length};
ghost use Rattle.refusal.specs.Table.{number_of, place_of};
ghost use Rattle.network.specs.Rows.{network_of};
ghost use Rattle.text.specs.Inner.{Wrote};
ghost use Rattle.sheet_lines.specs.Lines.{total_line_of, refused_line_of};
ghost use Rattle.sheet_lines.specs.Inner.{total_line_bytes, refused_line_bytes, area_bytes};
ghost use Rattle.sheet_kinds.specs.Text.{network_text, refused_text};
ghost use Rattle.sheet_kinds.specs.Inner.{NetworkIn};

use network::NetworkTables;
use refusal::Refusal;
use sheet_lines::{put_end, put_header, put_to_value};
use sheet_nodes::node_lines;
use sheet_taps::tap_lines;
use text::Writer;

fn total_line(to: &mut Writer, adders: u32)
    requires { to.old.at + total_line_bytes ≤ length to.old.area.now }
    ensures { Wrote to.old (total_line_of adders) total_line_bytes to.new }
{
    to.put(b"total,");
    put_to_value(to, adders);
    put_end(to);
}

fn refused_line(to: &mut Writer, number: u32, place: u32)
    requires { to.old.at + refused_line_bytes ≤ length to.old.area.now }
    ensures { Wrote to.old (refused_line_of number place) refused_line_bytes to.new }
{
    to.put(b"refused,");
    put_to_value(to, number);
    to.put_number(place);
    put_end(to);
}

// The sheet of the network in two tables, whose coefficients these are.
pub fn network_sheet(to: &mut Writer, network: NetworkTables, coefficients: &[i32])
    requires network_in { NetworkIn network.rows.now network.row_count network.taps.now network.tap_count coefficients.now }
    requires area_bytes_in_bounds { to.old.at + area_bytes ≤ length to.old.area.now }
    ensures { Wrote to.old
        (network_text (network_of network.entry.rows.now network.entry.row_count network.entry.taps.now network.entry.tap_count))
        area_bytes to.new }
{
    put_header(to);
    node_lines(to, network);
    tap_lines(to, network.taps, coefficients);
    total_line(to, adders::adders(network.row_count, coefficients));
}

pub fn refused_sheet(to: &mut Writer, refusal: Refusal)
    requires { to.old.at + area_bytes ≤ length to.old.area.now }
    ensures { Wrote to.old (refused_text (number_of refusal) (place_of refusal)) area_bytes to.new }
{
    put_header(to);
    refused_line(to, refusal::number(refusal), refusal::place(refusal));
}
