// Samples through 256 coefficients and 256 registers, four samples a pass. The registers and
// coefficients past the last that is not 0 are left out of the work.
#![tactic(auto)]

ghost use Rattle.std.specs.Prelude.{◌≡◌, List, ◌++◌, ℕ, ◌≤◌, length, drop};
ghost use Rattle.std.proofs.lemmas.List.Edits.{sets};
ghost use Rattle.run_convolution.specs.Running.{outputs_of, registers_of};
ghost use Rattle.run_tables.specs.Inner.{coefficients_in, Raised, ZeroFrom};
ghost use Rattle.run_kernel.specs.Inner.{fourfold, Passed};

use run_moves::{Line, lower, raise};
use run_passes::of_four;
use run_singly::singly;
use run_tables::{Tables, fill_coefficients, fill_offsets, used};

// The samples four by four, as far as that goes.
// Stays: std says nothing of what a slice ends as after `as_chunks_mut`, so an index pairs outputs and samples.
fn fours(tables: &Tables<'_>, samples: &[i16], line: &mut Line, outputs: &mut [i64])
    requires { length samples.now ≤ length outputs.old }
    ensures { (r : List ℕ) → 256 ≤ length r → ZeroFrom tables.now.width (coefficients_in tables.now.stored.now) r
        → Raised tables.now.width tables.now.offsets.now line.old.bias r line.old.words
        → Passed (coefficients_in tables.now.stored.now) tables.now.width tables.now.offsets.now r samples.now outputs.old
        (fourfold (length samples.now)) line.new.bias line.new.words outputs.new }
{
    for pass in 0..samples.len() / 4 {
        let i = 4 * pass;
        let four = [samples[i], samples[i + 1], samples[i + 2], samples[i + 3]];
        of_four(tables, four, line, &mut outputs[i..i + 4]);
    }
}

// The samples four by four, as far as that goes, with tables of the coefficients and raised
// registers.
fn by_fours(
    h: &[i32; 256],
    w: usize,
    samples: &[i16],
    registers: &mut [u64; 256],
    outputs: &mut [i64],
)
    requires width_to { w ≤ 256 }
    requires samples { 4 ≤ length samples.now }
    requires outputs { length samples.now ≤ length outputs.old }
    requires zero_from { ZeroFrom w h.now registers.old }
    ensures zero_from { ZeroFrom w h.now registers.new }
    ensures registers_after { registers_of h.now registers.new (drop (fourfold (length samples.now)) samples.now)
        ≡ registers_of h.now registers.old samples.now }
    ensures outputs_after { sets outputs.new (fourfold (length samples.now))
        (outputs_of h.now registers.new (drop (fourfold (length samples.now)) samples.now))
        ≡ sets outputs.old 0 (outputs_of h.now registers.old samples.now) }
{
    let mut stored = [0x8000_0000u64; 264];
    fill_coefficients(h, w, &mut stored);
    let mut offsets = [0u64; 265];
    fill_offsets(&stored, w, &mut offsets);
    let tables = Tables {
        width: w,
        stored: &stored,
        offsets: &offsets,
    };
    let mut line = Line {
        bias: 0,
        words: [0; 260],
    };
    raise(&tables, registers, &mut line);
    fours(&tables, samples, &mut line, outputs);
    lower(&tables, &line, registers);
}

// The same as `feed`, with nothing past the registers. Tables are not made for fewer than four
// samples.
fn feed_registers(h: &[i32; 256], samples: &[i16], registers: &mut [u64; 256], outputs: &mut [i64])
    requires { length samples.now ≤ length outputs.old }
    ensures registers_after { registers.new ≡ registers_of h.now registers.old samples.now }
    ensures outputs_after { outputs.new ≡ outputs_of h.now registers.old samples.now
        ++ drop (length samples.now) outputs.old }
{
    let w = used(h, registers);
    if samples.len() < 4 {
        singly(h, w, samples, registers, outputs);
        return;
    }
    by_fours(h, w, samples, registers, outputs);
    let passed = samples.len() - samples.len() % 4;
    singly(h, w, &samples[passed..], registers, &mut outputs[passed..]);
}

// The outputs for the samples, and the registers after them; what lies past the registers stays.
pub fn feed(h: &[i32; 256], samples: &[i16], registers: &mut [u64], outputs: &mut [i64])
    requires registers { 256 ≤ length registers.old }
    requires outputs { length samples.now ≤ length outputs.old }
    ensures registers_after { registers.new ≡ registers_of h.now registers.old samples.now }
    ensures outputs_after { outputs.new ≡ outputs_of h.now registers.old samples.now
        ++ drop (length samples.now) outputs.old }
{
    let Some(first) = registers.first_chunk_mut() else {
        unreachable!()
    };
    feed_registers(h, samples, first, outputs);
}
