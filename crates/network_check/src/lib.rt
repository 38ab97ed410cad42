// Checking a network, and the coefficients of one that passes.
#![tactic(auto)]

ghost use Rattle.std.specs.Prelude.{◌≡◌, ◌++◌, ◌*◌, ◌≤◌, ◌<◌, Bool, false, IfSome, MatchResult, OnOk, pos, length, drop, replicate};
ghost use Rattle.refusal.specs.Answer.{given, refuse_at, lowest, found_at, answer_of, turned_down_of};
ghost use Rattle.network.specs.Rows.{row_words, tap_words, rows_of, tap_rows_of, network_of};
ghost use Rattle.network.specs.Coefficients as Coefficients;
ghost use Rattle.network.specs.Check.{breaks_row_rule, breaks_tap_row_rule, numbers, checked, network_answer, outcome};
ghost use Rattle.network.specs.Checked.{NetworkChecked, CoefficientsRead};
ghost use Rattle.network.specs.Claims.{TablesFit};
ghost use Rattle.network_check.specs.Inner.{padded};

use network::NetworkTables;
use refusal::Refusal;

// The rows of a network are at most so many.
const MOST_ROWS: usize = 4096;

// The lowest row that breaks the row rule.
fn first_broken_row(network: NetworkTables) -> Option<usize>
    requires { row_words * network.row_count ≤ length network.rows.now }
    ensures value { let net = network.entry in
        found_at result ≡ lowest (breaks_row_rule (rows_of net.rows.now net.row_count)) (numbers net.row_count) }
    ensures within { IfSome result (λ i. i < network.entry.row_count) }
{
    (0..network.row_count).find(|i| !network_rules::keeps_row_rule(network.rows, *i))
}

// The coefficients, written to the buffer up to the lowest tap that breaks the tap row rule.
fn fill(network: NetworkTables, buffer: &mut [i32; 256]) -> Result<(), Refusal>
    requires { (row_words * network.row_count ≤ length network.rows.now) × (tap_words * network.tap_count ≤ length network.taps.now) × (network.tap_count ≤ 256) × (length buffer.old ≡ 256) }
    ensures value { let net = network.entry in
        answer_of result ≡ refuse_at (lowest (breaks_tap_row_rule (rows_of net.rows.now net.row_count)) (tap_rows_of net.taps.now net.tap_count)) 11 (given tt) }
    ensures buffer_after { let net = network.entry in
        OnOk result (buffer.new ≡ Coefficients.coefficients (network_of net.rows.now net.row_count net.taps.now net.tap_count) ++ drop net.tap_count buffer.old) }
{
    for j in 0..network.tap_count {
        let Some(c) = network_rules::tap_product(network, j) else {
            return Err(Refusal::TapRowRule(j as u32));
        };
        buffer[j] = c;
    }
    Ok(())
}

// The checks 1, 2 and 3 of the tables of a network. What they turn down is turned down by every
// entry that is lent these tables, whatever else is lent to it.
pub fn tables_fit(network: NetworkTables) -> Result<(), Refusal>
    ensures { let net = network.entry in MatchResult result
        (λ _. TablesFit false net.rows.now net.taps.now net.tap_count)
        (λ refusal. (short : Bool) → turned_down_of refusal ≡ outcome (network_answer short net.rows.now net.row_count net.taps.now net.tap_count)) }
{
    if network.tap_count == 0 {
        return Err(Refusal::NoTaps);
    }
    if network.tap_count > 256 {
        return Err(Refusal::TooManyTaps);
    }
    if network.rows.len() < network::ROW_TABLE || network.taps.len() < network::TAP_TABLE {
        return Err(Refusal::ShortTable);
    }
    Ok(())
}

// The checks 10 and 11 of a network in tables that are long enough. Where it passes, its
// coefficients are in the buffer, and zeros past them.
pub fn keeps_rules(network: NetworkTables, buffer: &mut [i32; 256]) -> Result<(), Refusal>
    requires fit { TablesFit false network.rows.now network.taps.now network.tap_count }
    requires zeros { buffer.old ≡ replicate 256 (pos 0) }
    ensures answer { let net = network.entry in
        answer_of result ≡ outcome (checked (network_of net.rows.now net.row_count net.taps.now net.tap_count)) }
    ensures filled { let net = network.entry in
        OnOk result (buffer.new ≡ padded (Coefficients.coefficients (network_of net.rows.now net.row_count net.taps.now net.tap_count))) }
{
    if network.row_count == 0 || network.row_count > MOST_ROWS {
        return Err(Refusal::RowRule(0));
    }
    if let Some(row) = first_broken_row(network) {
        return Err(Refusal::RowRule(row as u32));
    }
    fill(network, buffer)
}

// Whether the tables hold a network that keeps the rules, and else why not.
pub fn check(network: NetworkTables) -> Result<(), Refusal>
    ensures { NetworkChecked network.entry.rows.now network.entry.row_count network.entry.taps.now network.entry.tap_count (answer_of result) }
{
    tables_fit(network)?;
    keeps_rules(network, &mut [0; 256])
}

// The coefficients of a network that passes the checks, one per tap. On a refusal the lent table is
// not written.
pub fn coefficients(network: NetworkTables, table: &mut [i32]) -> Result<(), Refusal>
    ensures { CoefficientsRead network.entry.rows.now network.entry.row_count network.entry.taps.now network.entry.tap_count table.old (answer_of result) table.new }
{
    tables_fit(network)?;
    if table.len() < network.tap_count {
        return Err(Refusal::ShortTable);
    }
    let mut buffer = [0; 256];
    keeps_rules(network, &mut buffer)?;
    sequence::copy(&buffer, network.tap_count, table);
    Ok(())
}
