// Node lines.
#![tactic(auto)]

ghost use Rattle.std.specs.Prelude.{◌+◌, ◌*◌, ◌≤◌, ◌<◌, length};
ghost use Rattle.network.specs.Rows.{rows_of};
ghost use Rattle.text.specs.Lines.{lines_from};
ghost use Rattle.text.specs.Inner.{Wrote};
ghost use Rattle.sheet_lines.specs.Lines.{later_line_of, node_line_of};
ghost use Rattle.sheet_lines.specs.Inner.{node_line_bytes};
ghost use Rattle.sheet_nodes.specs.Inner.{RowsIn};

use network::{NetworkTables, Row};
use sheet_lines::{put_end, put_field, put_to_sign, put_to_value};
use text::Writer;

fn first_line(to: &mut Writer, row: Row)
    requires { to.old.at + node_line_bytes ≤ length to.old.area.now }
    ensures { Wrote to.old (node_line_of 0 row) node_line_bytes to.new }
{
    to.put(b"node,");
    put_to_value(to, 0);
    to.put_number(row.value);
    put_end(to);
}

fn later_line(to: &mut Writer, i: u32, row: Row)
    requires sign_bound { row.sign < 256 }
    requires node_line_bytes_in_bounds { to.old.at + node_line_bytes ≤ length to.old.area.now }
    ensures { Wrote to.old (later_line_of i row) node_line_bytes to.new }
{
    to.put(b"node,");
    put_to_sign(to, i, row.left, row.shift, row.sign);
    put_field(to, row.right);
    to.put_number(row.value);
    put_end(to);
}

fn node_line(to: &mut Writer, i: u32, row: Row)
    requires sign_bound { row.sign < 256 }
    requires node_line_bytes_in_bounds { to.old.at + node_line_bytes ≤ length to.old.area.now }
    ensures { Wrote to.old (node_line_of i row) node_line_bytes to.new }
{
    if i == 0 {
        first_line(to, row);
    } else {
        later_line(to, i, row);
    }
}

// The rows, by number.
pub fn node_lines(to: &mut Writer, network: NetworkTables)
    requires rows_in { RowsIn network.rows.now network.row_count }
    requires room { to.old.at + node_line_bytes * network.row_count ≤ length to.old.area.now }
    ensures { let net = network.entry in
        Wrote to.old (lines_from node_line_of 0 (rows_of net.rows.now net.row_count)) (node_line_bytes * net.row_count) to.new }
{
    for i in 0..network.row_count {
        node_line(to, i as u32, network::read_row(network.rows, i));
    }
}
