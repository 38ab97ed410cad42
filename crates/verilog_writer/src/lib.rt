// Writing a network as Verilog text.
#![tactic(auto)]

ghost use Rattle.std.specs.Prelude.{◌≡◌, ◌+◌, ◌≤◌, length};
ghost use Rattle.refusal.specs.Answer.{filled, answer_of};
ghost use Rattle.network.specs.Inner.{WithinBounds};
ghost use Rattle.text.specs.Inner.{WroteAll};
ghost use Rattle.verilog_text.specs.Text.{module_line};
ghost use Rattle.verilog_text.specs.Written.{text_in, length_answer, VerilogWritten};

use network::NetworkTables;
use refusal::Refusal;
use text::Writer;

// The module line of m taps.
fn put_module_line(to: &mut Writer, m: usize)
    requires { (m ≤ 256) × (to.old.at + length (module_line m) ≤ length to.old.area.now) }
    ensures { WroteAll to.old (module_line m) to.new }
{
    to.put(b"module smoother(input signed [15:0] x");
    verilog_taps::put_ports(to, m);
    to.put(b");\n");
}

// The whole text, where there is room for it.
fn put_text(to: &mut Writer, network: NetworkTables)
    requires within_bounds { WithinBounds network }
    requires room { to.old.at + length (text_in network.rows.now network.row_count network.taps.now network.tap_count) ≤ length to.old.area.now }
    ensures { let net = network.entry in
        WroteAll to.old (text_in net.rows.now net.row_count net.taps.now net.tap_count) to.new }
{
    put_module_line(to, network.tap_count);
    verilog_rows::put_wires(to, network.row_count);
    verilog_rows::put_row_lines(to, network);
    verilog_taps::put_tap_lines(to, network);
    to.put(b"endmodule\n");
}

// The text of a network that passes the checks, if the area has room for it.
fn write_checked(network: NetworkTables, text: &mut [u8]) -> Result<usize, Refusal>
    requires { WithinBounds network }
    ensures result_value { let net = network.entry in
        answer_of result ≡ length_answer (length text.old) (text_in net.rows.now net.row_count net.taps.now net.tap_count) }
    ensures text_after { let net = network.entry in
        text.new ≡ filled (answer_of result) (text_in net.rows.now net.row_count net.taps.now net.tap_count) text.old }
{
    if text.len() < verilog_length::text_bytes(network) {
        return Err(Refusal::TextTooLong);
    }
    let mut to = Writer { area: text, at: 0 };
    put_text(&mut to, network);
    Ok(to.at)
}

// The network that the two tables hold, as a Verilog module at the start of the area, and the length
// of that text.
pub fn write_verilog(network: NetworkTables, text: &mut [u8]) -> Result<usize, Refusal>
    ensures { VerilogWritten network.entry.rows.now network.entry.row_count network.entry.taps.now network.entry.tap_count
        text.old (answer_of result) text.new }
{
    network_check::check(network)?;
    write_checked(network, text)
}
