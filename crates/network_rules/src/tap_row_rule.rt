// The tap row rule, and the coefficient of a tap row that keeps it.
ghost use Rattle.std.specs.Prelude.{◌≡◌, true, ◌&&◌, ◌+◌, ◌*◌, ◌^◌, ◌≤◌, ◌<◌, leb, pos, length};
ghost use Rattle.std.specs.Int.{w32};
ghost use Rattle.std.proofs.Common.{to_z};
ghost use Rattle.network.specs.Rows.{row_words, tap_words, rows_of, tap_row_at};
ghost use Rattle.network.specs.Coefficients.{with_sign};
ghost use Rattle.network.specs.TapRowRule.{is_tap_sign};
ghost use Rattle.word.specs.Bounds.{within_bounds};
ghost use Rattle.network_rules.specs.Inner.{product_of};

use network::{MINUS, NONE, NetworkTables, PLUS};
use word::choose;

// p with the sign of a tap row, where that is a coefficient.
fn with_sign(sign: u32, p: u64) -> i32
    requires { (p ≤ 2 ^ 31) × ((is_tap_sign sign && within_bounds (with_sign sign (pos p))) ≡ true) }
    ensures { result ≡ with_sign sign (pos p) }
{
    let word = p as u32;
    choose(sign == MINUS, word.wrapping_neg(), word).cast_signed()
}

// The shift and the sign are those of a tap row that is not empty, and p with the sign is a
// coefficient: the code of - is 2 above that of +, so that p goes to 2^31 with - and to 2^31 - 1
// with +. There is no jump, since the signs of taps follow no pattern.
fn is_product(shift: u32, sign: u32, p: u64) -> bool
    requires { p < 2 ^ 63 }
    ensures { (result ≡ (leb shift 31 && is_tap_sign sign && within_bounds (with_sign sign (pos p)))) × (result ≡ true → p ≤ 2 ^ 31) }
{
    (shift <= 31)
        & ((sign == PLUS) | (sign == MINUS))
        & (2 * p <= 0x1_0000_0000 - (MINUS as u64) + (sign as u64))
}

// The product of tap row j over the rows of the network.
pub fn tap_product(network: NetworkTables, j: usize) -> Option<i32>
    requires { (row_words * network.row_count ≤ length network.rows.now) × (tap_words * j + tap_words ≤ length network.taps.now) }
    ensures { result ≡ product_of (rows_of network.entry.rows.now network.entry.row_count) (tap_row_at network.entry.taps.now j) }
{
    let tap = network::read_tap_row(network.taps, j);
    let row = tap.row as usize;
    if tap.sign == NONE {
        return ((row == 0) & (tap.shift == 0)).then_some(0);
    }
    if row >= network.row_count {
        return None;
    }
    let p = crate::lift(tap.shift % 32, network::read_value(network.rows, row));
    if is_product(tap.shift, tap.sign, p) {
        Some(with_sign(tap.sign, p))
    } else {
        None
    }
}
