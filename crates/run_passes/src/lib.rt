// A pass of four samples through 256 coefficients and raised registers.
#![tactic(auto)]

ghost use Rattle.std.specs.Prelude.{◌≡◌, List, ℕ, ◌≤◌, ◌<◌, ◌+◌, length};
ghost use Rattle.std.specs.Int.{w64};
ghost use Rattle.std.proofs.Common.{to_z};
ghost use Rattle.run_convolution.specs.Running.{registers_of, outputs_of};
ghost use Rattle.run_convolution.specs.Sums.{held};
ghost use Rattle.run_products.specs.Inner.{bias_after_of};
ghost use Rattle.run_tables.specs.Inner.{coefficients_in, Raised, ZeroFrom};
ghost use Rattle.run_moves.specs.Inner.{summed};
ghost use Rattle.run_passes.specs.Inner.{samples_in};

use run_moves::{Line, place, slide};
use run_products::{bias_after, lowered, offset_sample, raised};
use run_tables::Tables;

// After the words in use, those of four registers that hold 0.
fn top(tables: &Tables<'_>, line: &mut Line)
    ensures bias { line.new.bias ≡ line.old.bias }
    ensures raised { (r : List ℕ) → ((k : ℕ) → tables.now.width ≤ k → held r k ≡ 0)
        → Raised tables.now.width tables.now.offsets.now line.old.bias r line.old.words
        → Raised (tables.now.width + 4) tables.now.offsets.now line.old.bias r line.new.words }
{
    for k in tables.width..tables.width + 4 {
        line.words[k] = raised(0, tables.offsets[k + 5], line.bias);
    }
}

// The output at place j; the bias is that after the four samples.
fn output(tables: &Tables<'_>, j: usize, y: &[u16; 4], bias: u64, words: &[u64; 260]) -> i64
    requires { j < 4 }
    ensures { (g : ℕ) (r : List ℕ) → bias ≡ bias_after_of g y.now → Raised 4 tables.now.offsets.now g r words.now
        → result ≡ to_z w64 (summed tables.now.stored.now y.now j (held r j)) }
{
    let sum = place(tables.stored, j, words[j], *y);
    lowered(sum, tables.offsets[j + 1], bias).cast_signed()
}

// The outputs for four samples.
// Stays: four lines, since the edit `first_output_echoed` names three of them one by one.
fn answer(tables: &Tables<'_>, y: &[u16; 4], bias: u64, words: &[u64; 260], outputs: &mut [i64])
    requires { length outputs.old ≡ 4 }
    ensures { (g : ℕ) (r : List ℕ) → bias ≡ bias_after_of g y.now → Raised 4 tables.now.offsets.now g r words.now
        → outputs.new ≡ outputs_of (coefficients_in tables.now.stored.now) r (samples_in y.now) }
{
    outputs[0] = output(tables, 0, y, bias, words);
    outputs[1] = output(tables, 1, y, bias, words);
    outputs[2] = output(tables, 2, y, bias, words);
    outputs[3] = output(tables, 3, y, bias, words);
}

// Four samples, one after the other, and their outputs.
pub fn of_four(tables: &Tables<'_>, samples: [i16; 4], line: &mut Line, outputs: &mut [i64])
    requires { length outputs.old ≡ 4 }
    ensures { (r : List ℕ) → ZeroFrom tables.now.width (coefficients_in tables.now.stored.now) r
        → Raised tables.now.width tables.now.offsets.now line.old.bias r line.old.words
        → (Raised tables.now.width tables.now.offsets.now line.new.bias
        (registers_of (coefficients_in tables.now.stored.now) r samples) line.new.words)
        × (outputs.new ≡ outputs_of (coefficients_in tables.now.stored.now) r samples) }
{
    let y = [
        offset_sample(samples[0]),
        offset_sample(samples[1]),
        offset_sample(samples[2]),
        offset_sample(samples[3]),
    ];
    let after = bias_after(line.bias, y);
    top(tables, line);
    answer(tables, &y, after, &line.words, outputs);
    slide(tables.stored, y, tables.width, &mut line.words);
    line.bias = after;
}
