// Step 2 of building: the search for one new row from two that are there, over rows with their index.
#![tactic(auto)]

mod row_signs;

ghost use Rattle.std.specs.Prelude.{◌≡◌};
ghost use Rattle.network.specs.Rows.{rows_of};
ghost use Rattle.build_steps.specs.Search.{first_fit_of};
ghost use Rattle.build_sieve.specs.Inner.{AreSieved};
ghost use Rattle.build_pair.specs.Inner.{Searchable, fit_of};

use build_index::IndexedRows;
use build_sieve::SieveTables;
use network::Row;
use row_signs::{Left, Search};

// The first fit for v: lowest left, then lowest shift, then sign, from the first turn that can have
// one. No row's value is above most, so that no shift fits past v + most.
pub fn first_fit<'a>(
    rows: &'a IndexedRows<'a>,
    sieve: &'a SieveTables<'a>,
    most: u32,
    v: u32,
) -> Option<Row>
    requires { Searchable rows.now most v × AreSieved rows.now sieve.now }
    ensures { fit_of result ≡ first_fit_of (rows_of rows.now.table.now rows.now.count) v }
{
    let limit = v as u64 + most as u64;
    let turn = build_left_rows::first_turn(rows, sieve, v);
    let search = Search { rows, most, v };
    let mut shift = ((turn % 32) as u32).max(1);
    'search: {
        for i in turn / 32..rows.count {
            let mut a = (rows.value(i) as u64) << shift;
            while a <= limit {
                let left = Left {
                    row: i as u32,
                    shift,
                    lifted: a,
                };
                if let Some(row) = search.at_shift(left) {
                    break 'search Some(row);
                }
                // Stays: document 01 has loops over row, shift and sign here, and an edit falls at `limit`.
                a *= 2;
                shift += 1;
            }
            shift = 1;
        }
        None
    }
}
