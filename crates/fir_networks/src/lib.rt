// Networks: building, the check, the coefficients of one that passes, and running. Functions for C,
// declared in include/fir.h.
#![tactic(auto)]

ghost use Rattle.fir_networks.specs.Check.{CheckedWord, CoefficientsWord};
ghost use Rattle.fir_networks.specs.Run.{RanWord};

mod building;

pub use building::fir_build;
use fir_words::answer_word;
use network::NetworkTables;

// Whether the tables hold a network that keeps the rules.
#[unsafe(no_mangle)]
pub extern "C" fn fir_check(rows: &[u32], row_count: usize, taps: &[u32], tap_count: usize) -> u64
    ensures { CheckedWord rows.now row_count taps.now tap_count result }
{
    let network = NetworkTables {
        rows,
        row_count,
        taps,
        tap_count,
    };
    answer_word(network_check::check(network))
}

// The coefficients of a network that passes the check.
#[unsafe(no_mangle)]
pub extern "C" fn fir_coefficients(
    rows: &[u32],
    row_count: usize,
    taps: &[u32],
    tap_count: usize,
    table: &mut [i32],
) -> u64
    ensures { CoefficientsWord rows.now row_count taps.now tap_count table.old result table.new }
{
    let network = NetworkTables {
        rows,
        row_count,
        taps,
        tap_count,
    };
    answer_word(network_check::coefficients(network, table))
}

// Samples run through a network that passes the check.
#[unsafe(no_mangle)]
pub extern "C" fn fir_run(
    rows: &[u32],
    row_count: usize,
    taps: &[u32],
    tap_count: usize,
    samples: &[i16],
    registers: &mut [u64],
    outputs: &mut [i64],
) -> u64
    ensures { RanWord rows.now row_count taps.now tap_count samples.now registers.old
        outputs.old
        result registers.new outputs.new }
{
    let network = NetworkTables {
        rows,
        row_count,
        taps,
        tap_count,
    };
    answer_word(run_network::run(network, samples, registers, outputs))
}
