// The rows of a network, built odd part by odd part.
#![tactic(auto)]

ghost use Rattle.std.specs.Prelude.{◌≡◌, [], ◌∷◌, map, ◌≤◌, length};
ghost use Rattle.network.specs.Rows.{first_row_of};
ghost use Rattle.build_steps.specs.Steps.{step, steps};
ghost use Rattle.build_odd_parts.specs.Inner.{part_in};
ghost use Rattle.build_index.specs.Inner.{IsIndexed, HasRoom, Grown};
ghost use Rattle.build_sieve.specs.Inner.{HasSieve, SameSieve};
ghost use Rattle.build_chain.specs.Inner.{rows_in};
ghost use Rattle.build_part.specs.Inner.{part_of, Ready};
ghost use Rattle.build_rows.specs.Inner.{CanStart};

use build_index::Rows;
use build_odd_parts::OddPart;
use build_sieve::Sieve;

// The three steps for one odd part, after which its rows join the sieve.
fn take_part(rows: &mut Rows, sieve: &mut Sieve, most: u32, v: u32, choice: u32)
    requires { Ready rows.old sieve.old.values.now sieve.old.marks.now most (part_of v choice) }
    ensures grown { Grown rows.old rows.new (step (rows_in rows.old) (part_of v choice)) }
    ensures sieved { HasSieve rows.new sieve.new }
    ensures lent { SameSieve sieve.old sieve.new }
{
    let from = rows.count;
    build_part::add_part(rows, &sieve.read(), most, v, choice);
    sieve.extend(&rows.read(), from);
}

// Row 0, with its index and its sieve.
fn first_row(rows: &mut Rows, sieve: &mut Sieve)
    requires indexed { (rows.old.count ≡ 0) × IsIndexed rows.old × HasRoom rows.old 1 }
    requires sieve { HasSieve rows.old sieve.old × (8 ≤ length sieve.old.values.now) }
    ensures grown { Grown rows.old rows.new (first_row_of ∷ []) }
    ensures sieved { HasSieve rows.new sieve.new }
    ensures lent { SameSieve sieve.old sieve.new }
{
    rows.put(network::FIRST);
    sieve.extend(&rows.read(), 0);
}

// Row 0 and the rows of the odd parts, in order. The largest value is kept on the way.
pub fn add_rows(parts: &[OddPart], choices: &[u32], rows: &mut Rows, sieve: &mut Sieve)
    requires { CanStart parts.now choices.now rows.old sieve.old }
    ensures grown { Grown rows.old rows.new (steps (first_row_of ∷ []) (map (part_in choices.now) parts.now)) }
    ensures lent { SameSieve sieve.old sieve.new }
{
    first_row(rows, sieve);
    let mut most: u32 = 1;
    for part in parts {
        let choice = choices[part.tap as usize];
        take_part(rows, sieve, most, part.value, choice);
        most = most.max(part.value);
    }
}
