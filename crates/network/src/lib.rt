// The rows and tap rows of a network, and how tables of words hold them: no other crate knows which
// words they have.
#![tactic(auto)]

mod rows;
mod tap_rows;

pub use rows::{read_row, read_value, write_row};
pub use tap_rows::{read_tap_row, write_tap_row};

// The lengths of lent tables, in words: 4,096 rows, and 256 tap rows.
pub const ROW_TABLE: usize = 20480;

pub const TAP_TABLE: usize = 768;

// The two tables that hold a network, and how many rows and tap rows it has.
// Stays: counts beside the tables, for C lends tables of full length and their counts.
#[derive(Clone, Copy)]
pub struct NetworkTables<'a> {
    pub rows: &'a [u32],
    pub row_count: usize,
    pub taps: &'a [u32],
    pub tap_count: usize,
}

// The signs of rows and tap rows, as they are stored; an empty tap row has none.
// Stays: codes, for a lent table may hold any word here, and the rules judge it without a jump.
pub const PLUS: u32 = 43;

pub const MINUS: u32 = 45;

pub const REVERSED: u32 = 114;

pub const NONE: u32 = 0;

// Its value is worked out from the values of the rows left and right.
#[derive(Clone, Copy, Debug, PartialEq, Eq)]
pub struct Row {
    pub left: u32,
    pub right: u32,
    pub shift: u32,
    // Stays: a code in built rows too, for one type serves both and goes into lent words as it is.
    pub sign: u32,
    pub value: u32,
}

// Row 0.
pub const FIRST: Row = Row {
    left: 0,
    right: 0,
    shift: 0,
    sign: PLUS,
    value: 1,
};

#[derive(Clone, Copy, Debug, PartialEq, Eq)]
pub struct TapRow {
    pub sign: u32,
    pub row: u32,
    pub shift: u32,
}

// The tap row of a coefficient that is 0.
pub const EMPTY: TapRow = TapRow {
    sign: NONE,
    row: 0,
    shift: 0,
};
