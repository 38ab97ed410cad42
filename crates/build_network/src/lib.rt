// A network built from coefficients and chosen forms.
#![tactic(auto)]

mod form_choices;

ghost use Rattle.std.specs.Prelude.{MatchResult};
ghost use Rattle.build_steps.specs.Built.{BuiltInto};
ghost use Rattle.build_network.specs.Inner.{CanBeBuilt, IsRefused};
ghost use Rattle.refusal.specs.Answer.{answer_of};

use refusal::Refusal;

// The checks, down the table.
// Stays: here and in `build` the tables are apart, as the C interface has them.
fn check(coefficients: &[i32], choices: &[u32], rows: &[u32], taps: &[u32]) -> Result<(), Refusal>
    ensures { MatchResult result (λ x. CanBeBuilt coefficients.now choices.now rows.now taps.now) (λ r. IsRefused coefficients.now choices.now rows.now taps.now r) }
{
    let n = coefficients.len();
    if n == 0 {
        return Err(Refusal::NoTaps);
    }
    if n > 256 {
        return Err(Refusal::TooManyTaps);
    }
    if choices.len() < n || rows.len() < network::ROW_TABLE || taps.len() < network::TAP_TABLE {
        return Err(Refusal::ShortTable);
    }
    match form_choices::first_without_form(coefficients, choices) {
        Some(tap) => Err(Refusal::NoSuchForm(tap as u32)),
        None => Ok(()),
    }
}

// Builds the network of the coefficients, each with the form chosen for it, into the two tables, and
// returns the number of rows. The tables are written only where all is accepted.
pub fn build(
    coefficients: &[i32],
    choices: &[u32],
    rows: &mut [u32],
    taps: &mut [u32],
) -> Result<u32, Refusal>
    ensures { BuiltInto coefficients.now choices.now rows.old taps.old
        (answer_of result) rows.new taps.new }
{
    check(coefficients, choices, rows, taps)?;
    let count = build_tables::build_accepted(coefficients, choices, rows, taps);
    Ok(count as u32)
}
