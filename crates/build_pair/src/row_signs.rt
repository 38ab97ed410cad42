// One left row and one shift of the search for a new row: the right row that each sign asks for.
ghost use Rattle.std.specs.Prelude.{◌≡◌, ◌^◌, ◌≤◌, T};
ghost use Rattle.network.specs.Rows.{rows_of};
ghost use Rattle.network.specs.RowRule.{is_row_sign};
ghost use Rattle.build_steps.specs.Search.{tried, fit_at_shift};
ghost use Rattle.build_pair.specs.Inner.{right_value_of, Searchable, AtShift, fit_of};

use build_index::IndexedRows;
use network::{MINUS, PLUS, REVERSED, Row};

// A search for a new row of value v, over rows of values up to most.
#[derive(Drop)]
pub struct Search<'a> {
    pub rows: &'a IndexedRows<'a>,
    pub most: u32,
    pub v: u32,
    pub ghost searchable: { Searchable rows.now most v },
}

// A left row at a shift, with its value lifted by the shift.
#[derive(Clone, Copy)]
pub struct Left {
    pub row: u32,
    pub shift: u32,
    pub lifted: u64,
}

// The value that makes v on the right; 0 where none does.
// Stays: no Option, since a difference may itself be 0, which no row has: one test then does for both.
fn right_value(sign: u32, lifted: u64, v: u64) -> u64
    requires { (lifted ≤ 2 ^ 32) × (v ≤ 2 ^ 32) }
    ensures { result ≡ right_value_of sign lifted v }
{
    match sign {
        PLUS => v.saturating_sub(lifted),
        MINUS => lifted.saturating_sub(v),
        _ => lifted + v,
    }
}

impl<'a> Search<'a> {
    // One left row, shift and sign.
    fn with_sign(&self, left: Left, sign: u32) -> Option<Row>
        requires { AtShift self.now.rows.now left × T (is_row_sign sign) }
        ensures { fit_of result ≡ tried (rows_of self.now.rows.now.table.now self.now.rows.now.count) self.now.v left.row left.shift sign }
    {
        let x = right_value(sign, left.lifted, self.v as u64);
        if x == 0 || x > self.most as u64 {
            return None;
        }
        let right = self.rows.find(x as u32)?;
        Some(Row {
            left: left.row,
            right: right as u32,
            shift: left.shift,
            sign,
            value: self.v,
        })
    }

    // One left row and shift: the signs in the order +, -, r.
    pub fn at_shift(&self, left: Left) -> Option<Row>
        requires { AtShift self.now.rows.now left }
        ensures { fit_of result ≡ fit_at_shift (rows_of self.now.rows.now.table.now self.now.rows.now.count) self.now.v left.row left.shift }
    {
        for sign in [PLUS, MINUS, REVERSED] {
            if let Some(row) = self.with_sign(left, sign) {
                return Some(row);
            }
        }
        None
    }
}
