// A network as Verilog text: a function for C, declared in include/fir.h.
#![tactic(auto)]

ghost use Rattle.fir_verilog.specs.Written.{WrittenWord};

use fir_words::store;
use network::NetworkTables;

// The network that the tables hold, as a Verilog module at the start of the area, and the length of
// that text.
#[unsafe(no_mangle)]
pub extern "C" fn fir_verilog(
    rows: &[u32],
    row_count: usize,
    taps: &[u32],
    tap_count: usize,
    text: &mut [u8],
    length: &mut usize,
) -> u64
    ensures { WrittenWord rows.now row_count taps.now tap_count text.old length.old
        result text.new length.new }
{
    let network = NetworkTables {
        rows,
        row_count,
        taps,
        tap_count,
    };
    store(verilog_writer::write_verilog(network, text), length)
}
