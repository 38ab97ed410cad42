// Step 3 of building: a chosen form read from its highest nonzero digit down, with a row for each value
// on the way.
#![tactic(auto)]

mod chosen;

ghost use Rattle.std.specs.Prelude.{◌≡◌, ◌*◌, ◌^◌, ◌<◌, length};
ghost use Rattle.form_masks.specs.Form.{string_of};
ghost use Rattle.build_steps.specs.Search.{row_with};
ghost use Rattle.build_steps.specs.Chain.{add_unless, chained};
ghost use Rattle.build_index.specs.Inner.{IsIndexed, HasRoom, Grown};
ghost use Rattle.build_chain.specs.Inner.{rows_in, Readable, Digits, Reading, to_come, IsNext, Reached, Turned};

use build_index::Rows;
pub use chosen::chosen_form;
use form_masks::Form;
use network::Row;

// A form that is being read: the row and the value of the digits that are read; the place of the last of
// these, and the nonzero digits below it.
#[derive(Clone, Copy)]
struct Chain {
    form: Form,
    row: u32,
    value: u32,
    place: u32,
    rest: u32,
}

// The next nonzero digit: its distance, the sign and the value of its row, its place, and the nonzero
// digits below it.
#[derive(Clone, Copy)]
struct Step {
    gap: u32,
    sign: u32,
    value: u32,
    place: u32,
    rest: u32,
}

// v moved up by some places.
fn lifted(v: u32, places: u32) -> u32
    requires { (places < 32) × (2 ^ places * v < 2 ^ 32) }
    ensures { result ≡ 2 ^ places * v }
{
    v << places
}

// The number of the row of a value; the row is written where the value has none.
fn reach(rows: &mut Rows, row: Row) -> u32
    requires indexed { IsIndexed rows.old }
    requires has_room { HasRoom rows.old (length (add_unless (row_with (rows_in rows.old) row.value) (rows_in rows.old) row)) }
    ensures { Reached rows.old row rows.new result }
{
    match rows.find(row.value) {
        Some(i) => i as u32,
        None => {
            let n = rows.count;
            rows.put(row);
            n as u32
        }
    }
}

impl Chain {
    // The next nonzero digit.
    fn next_digit(&self) -> Step
        requires { Digits self.now × (0 < self.now.rest) }
        ensures { IsNext self.now result }
    {
        let place = self.rest.ilog2();
        let plus = (self.form.plus >> place) % 2 == 1;
        let gap = self.place - place;
        let raised = lifted(self.value, gap);
        Step {
            gap,
            sign: word::choose(plus, network::PLUS, network::MINUS),
            value: word::choose(plus, raised + 1, raised - 1),
            place,
            rest: self.rest - lifted(1, place),
        }
    }

    // One digit further, with the row of its value.
    fn turn(self, rows: &mut Rows) -> Chain
        requires indexed { IsIndexed rows.old }
        requires reading { Reading self (rows_in rows.old) × (0 < self.rest) }
        requires has_room { HasRoom rows.old (length (to_come self (rows_in rows.old))) }
        ensures { Turned rows.old self rows.new result }
    {
        let step = self.next_digit();
        let row = Row {
            left: self.row,
            right: 0,
            shift: step.gap,
            sign: step.sign,
            value: step.value,
        };
        Chain {
            form: self.form,
            row: reach(rows, row),
            value: step.value,
            place: step.place,
            rest: step.rest,
        }
    }
}

// Adds the rows of a form to those that are there. The highest nonzero digit, a 1, is row 0.
pub fn add_chain(rows: &mut Rows, form: Form)
    requires indexed { IsIndexed rows.old × Readable form (rows_in rows.old) }
    requires has_room { HasRoom rows.old (length (chained (rows_in rows.old) (string_of form))) }
    ensures { Grown rows.old rows.new (chained (rows_in rows.old) (string_of form)) }
{
    let mask = form.plus | form.minus;
    let place = mask.ilog2();
    let mut chain = Chain {
        form,
        row: 0,
        value: 1,
        place,
        rest: mask - lifted(1, place),
    };
    while chain.rest != 0 {
        chain = chain.turn(rows);
    }
}
