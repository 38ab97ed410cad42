// Running samples through a network.
#![tactic(auto)]

ghost use Rattle.std.specs.Prelude.{◌≡◌, false, OnOk, pos, replicate};
ghost use Rattle.refusal.specs.Answer.{answer_of};
ghost use Rattle.network.specs.Rows.{network_of};
ghost use Rattle.network.specs.Coefficients.{coefficients};
ghost use Rattle.network.specs.Check.{checked, outcome};
ghost use Rattle.network.specs.Claims.{TablesFit};
ghost use Rattle.network_check.specs.Inner.{padded};
ghost use Rattle.run_calls.specs.Run.{Ran};

use network::NetworkTables;
use refusal::Refusal;

// The same as `network_check::keeps_rules`. Apart, so that what it is handed takes no stack while samples
// run.
fn keeps_rules(network: NetworkTables, buffer: &mut [i32; 256]) -> Result<(), Refusal>
    requires fit { TablesFit false network.rows.now network.taps.now network.tap_count }
    requires zeros { buffer.old ≡ replicate 256 (pos 0) }
    ensures answer { let net = network.entry in
        answer_of result ≡ outcome (checked (network_of net.rows.now net.row_count net.taps.now net.tap_count)) }
    ensures filled { let net = network.entry in
        OnOk result (buffer.new ≡ padded (coefficients (network_of net.rows.now net.row_count net.taps.now net.tap_count))) }
{
    network_check::keeps_rules(network, buffer)
}

// The outputs for the samples and the registers after them, where nothing is turned down. The
// network is checked and its coefficients are worked out once.
pub fn run(
    network: NetworkTables,
    samples: &[i16],
    registers: &mut [u64],
    outputs: &mut [i64],
) -> Result<(), Refusal>
    ensures { Ran network.entry.rows.now network.entry.row_count network.entry.taps.now network.entry.tap_count
        samples.now registers.old outputs.old
        (answer_of result) registers.new outputs.new }
{
    network_check::tables_fit(network)?;
    let short = (registers.len() < 256) | (outputs.len() < samples.len());
    if short {
        return Err(Refusal::ShortTable);
    }
    let mut h = [0; 256];
    keeps_rules(network, &mut h)?;
    run_kernel::feed(&h, samples, registers, outputs);
    Ok(())
}
