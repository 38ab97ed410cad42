// Steps 1 to 3 of building, for one odd part.
#![tactic(auto)]

ghost use Rattle.build_steps.specs.Steps.{step};
ghost use Rattle.build_index.specs.Inner.{Grown};
ghost use Rattle.build_chain.specs.Inner.{rows_in};
ghost use Rattle.build_part.specs.Inner.{part_of, Ready};

use build_index::Rows;
use build_sieve::SieveTables;

// The rows with those of one odd part: a row that has its value, a new row from two that are there, or the
// chain of its chosen form.
pub fn add_part(rows: &mut Rows, sieve: &SieveTables, most: u32, v: u32, choice: u32)
    requires { Ready rows.old sieve.now.values.now sieve.now.marks.now most (part_of v choice) }
    ensures { Grown rows.old rows.new (step (rows_in rows.old) (part_of v choice)) }
{
    if rows.find(v).is_some() {
        return;
    }
    match build_pair::first_fit(&rows.read(), sieve, most, v) {
        Some(row) => rows.put(row),
        None => {
            let form = build_chain::chosen_form(v, choice);
            build_chain::add_chain(rows, form);
        }
    }
}
