// The tap rows of a built network.
#![tactic(auto)]

ghost use Rattle.std.specs.Prelude.{◌≡◌, ◌*◌, ◌≤◌, length};
ghost use Rattle.refusal.specs.Answer.{place_or};
ghost use Rattle.coefficient.specs.Parts.{parts_of, sign_if};
ghost use Rattle.network.specs.Rows.{rows_of, tap_words, words_of_tap_rows};
ghost use Rattle.build_steps.specs.Search.{row_with};
ghost use Rattle.build_steps.specs.TapRows.{sign_code, tap_row_of};
ghost use Rattle.build_index.specs.Inner.{HasIndex};
ghost use Rattle.build_tap_rows.specs.Inner.{over, tap_rows_for};

use build_index::IndexedRows;
use network::TapRow;

// The sign as it is stored.
fn sign_code(negative: bool) -> u32
    ensures { result ≡ sign_code (sign_if negative) }
{
    word::choose(negative, network::MINUS, network::PLUS)
}

// The row that has the value x, 0 where there is none.
// Stays: no Option, since `tap_row_of` says row 0 for none, and a tap row holds a number.
fn row_of(rows: &IndexedRows, x: u32) -> u32
    requires { HasIndex rows.now }
    ensures { result ≡ place_or 0 (row_with (rows_of rows.now.table.now rows.now.count) x) }
{
    rows.find(x).unwrap_or(0) as u32
}

fn tap_row(rows: &IndexedRows, coefficient: i32) -> TapRow
    requires { HasIndex rows.now }
    ensures { result ≡ tap_row_of (rows_of rows.now.table.now rows.now.count) (parts_of coefficient) }
{
    match coefficient::reduce(coefficient) {
        None => network::EMPTY,
        Some(reduction) => TapRow {
            sign: sign_code(reduction.negative),
            row: row_of(rows, reduction.odd_part),
            shift: reduction.shift,
        },
    }
}

// The tap rows of the coefficients, over the rows that are built.
pub fn write_tap_rows(coefficients: &[i32], rows: &IndexedRows, taps: &mut [u32])
    requires { HasIndex rows.now × (tap_words * length coefficients.now ≤ length taps.old) }
    ensures { taps.new ≡ over (words_of_tap_rows (tap_rows_for (rows_of rows.now.table.now rows.now.count) coefficients.now)) taps.old }
{
    for (j, coefficient) in coefficients.iter().enumerate() {
        network::write_tap_row(taps, j, tap_row(rows, *coefficient));
    }
}
