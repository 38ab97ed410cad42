// The row rule.
ghost use Rattle.std.specs.Prelude.{◌≡◌, ℕ, ◌+◌, ◌*◌, ◌^◌, ◌≤◌, ◌<◌, length};
ghost use Rattle.network.specs.Rows.{row_words, rows_of};
ghost use Rattle.network.specs.RowRule.{is_worked_of, is_sum_of, keeps_row_rule_of};

use network::{FIRST, MINUS, PLUS, REVERSED, Row};
use word::choose;

// The value v, which is not 0, is the one that the sign gives for a and b: of the three the sign
// names one that is the sum of the other two.
fn is_worked(sign: u32, a: u64, b: u64, v: u64) -> bool
    requires { (a < 2 ^ 63) × (b < 2 ^ 32) × (v < 2 ^ 32) }
    ensures { 1 ≤ v → result ≡ is_worked_of sign a b v }
{
    let right = choose(sign == REVERSED, b, 0);
    let left = choose(sign == MINUS, a, right);
    a + b + v == choose(sign == PLUS, v, left) << 1
}

// Shift, sign and value of a later row, over the values of the rows that it names. There is no
// jump, since a network's signs follow no pattern.
fn is_sum(row: Row, left: u32, right: u32) -> bool
    ensures { result ≡ is_sum_of row left right }
{
    let a = crate::lift(row.shift % 32, left);
    ((1 <= row.shift) & (row.shift <= 31))
        & is_worked(row.sign, a, right as u64, row.value as u64)
        & ((row.value % 2 == 1) & (row.value <= 2147483647))
        & (a <= 4294967296)
}

// Row i keeps the row rule, in every network of these rows that has it.
pub fn keeps_row_rule(rows: &[u32], i: usize) -> bool
    requires { row_words * i + row_words ≤ length rows.now }
    ensures { (n : ℕ) → i < n → result ≡ keeps_row_rule_of (rows_of rows.now n) i }
{
    let row = network::read_row(rows, i);
    if i == 0 {
        return row == FIRST;
    }
    let left = row.left as usize;
    let right = row.right as usize;
    if left >= i || right >= i {
        return false;
    }
    is_sum(
        row,
        network::read_value(rows, left),
        network::read_value(rows, right),
    )
}
