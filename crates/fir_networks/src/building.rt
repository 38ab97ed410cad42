// Building a network: a function for C, declared in include/fir.h.
ghost use Rattle.fir_networks.specs.Built.{BuiltWord};

// The network of the coefficients and choices, in the two tables, and the number of its rows.
#[unsafe(no_mangle)]
pub extern "C" fn fir_build(
    coefficients: &[i32],
    choices: &[u32],
    rows: &mut [u32],
    taps: &mut [u32],
    row_count: &mut usize,
) -> u64
    ensures { BuiltWord coefficients.now choices.now rows.old taps.old row_count.old
        result rows.new taps.new row_count.new }
{
    let count = build_network::build(coefficients, choices, rows, taps);
    fir_words::store(count.map(|n| n as usize), row_count)
}
