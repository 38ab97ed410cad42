// A network written into its two tables.
#![tactic(auto)]

ghost use Rattle.std.specs.Prelude.{◌+◌, ◌≤◌, ◌<◌, length};
ghost use Rattle.build_steps.specs.Steps.{built_rows};
ghost use Rattle.build_steps.specs.CanBuild.{CanBuildInto};
ghost use Rattle.build_odd_parts.specs.Inner.{Ordered};
ghost use Rattle.build_tables.specs.Inner.{Written};

use build_index::Rows;
use build_odd_parts::OddPart;
use build_sieve::Sieve;

// Stays: here and below the tables are apart, as the C interface has them.
// The network, over an index and a sieve of these sizes, which are empty at first. Out of line, so that
// the tables of two sizes share the stack.
#[inline(never)]
fn within<const HEADS: usize, const LINKS: usize, const VALUES: usize, const MARKS: usize>(
    coefficients: &[i32],
    choices: &[u32],
    parts: &[OddPart],
    rows: &mut [u32],
    taps: &mut [u32],
) -> usize
    requires can_build_into { CanBuildInto coefficients.now choices.now rows.old taps.old }
    requires ordered { Ordered coefficients.now parts.now }
    requires index { (0 < HEADS) × (length (built_rows coefficients.now choices.now) ≤ LINKS) }
    requires small { (HEADS ≤ 4096) × (LINKS ≤ 4096) × (VALUES ≤ 4096) × (MARKS ≤ 32768) }
    requires sieve { (length (built_rows coefficients.now choices.now) + 7 ≤ VALUES) × (2048 ≤ MARKS) }
    ensures { Written coefficients.now choices.now rows.old taps.old
        rows.new taps.new result }
{
    let mut heads = [0u16; HEADS];
    let mut links = [0u16; LINKS];
    let mut values = [0u32; VALUES];
    let mut marks = [0u8; MARKS];
    let mut built = Rows {
        table: rows,
        heads: &mut heads,
        links: &mut links,
        count: 0,
    };
    let mut sieve = Sieve {
        values: &mut values,
        marks: &mut marks,
    };
    build_rows::add_rows(parts, choices, &mut built, &mut sieve);
    build_tap_rows::write_tap_rows(coefficients, &built.read(), taps);
    built.count
}

// The odd parts in order, and the network, with an index and a sieve as large as the rows can need:
// row 0, and for each odd part one less than its weight. There can be 3,841 rows at most, for which
// half of the heads are left out, so that no more than 64 KB of stack are needed.
pub fn build_accepted(
    coefficients: &[i32],
    choices: &[u32],
    rows: &mut [u32],
    taps: &mut [u32],
) -> usize
    requires { CanBuildInto coefficients.now choices.now rows.old taps.old }
    ensures { Written coefficients.now choices.now rows.old taps.old
        rows.new taps.new result }
{
    let mut room = [OddPart::NONE; 256];
    let count = build_odd_parts::order(coefficients, &mut room);
    let parts = &room[..count];
    let weights = build_odd_parts::total_weight(parts);
    if weights < count + 64 {
        return within::<64, 64, 72, 2048>(coefficients, choices, parts, rows, taps);
    }
    if weights < count + 512 {
        return within::<512, 512, 520, 8192>(coefficients, choices, parts, rows, taps);
    }
    if weights < count + 3072 {
        return within::<4096, 3072, 3080, 32768>(coefficients, choices, parts, rows, taps);
    }
    within::<2048, 3841, 3848, 32768>(coefficients, choices, parts, rows, taps)
}
