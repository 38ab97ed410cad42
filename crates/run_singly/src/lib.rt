// Samples through 256 coefficients and 256 registers, one by one.
#![tactic(auto)]

ghost use Rattle.std.specs.Prelude.{◌≡◌, ◌++◌, ◌≤◌, length, drop};
ghost use Rattle.run_convolution.specs.Running.{next, outputs_of, registers_of};
ghost use Rattle.run_tables.specs.Inner.{ZeroFrom};

use run_products::sum;

// The registers after one sample; those from w on are 0 and stay so.
fn move_one(h: &[i32; 256], x: i16, w: usize, registers: &mut [u64])
    requires registers { 256 ≤ length registers.old }
    requires zero_from { ZeroFrom w h.now registers.old }
    ensures { registers.new ≡ next h.now x registers.old }
{
    for k in 0..w.min(255) {
        registers[k] = sum(registers[k + 1], h[k + 1], x);
    }
    registers[255] = 0;
}

// The samples, one by one; registers and coefficients from w on are 0.
pub fn singly(h: &[i32; 256], w: usize, samples: &[i16], registers: &mut [u64], outputs: &mut [i64])
    requires registers { 256 ≤ length registers.old }
    requires outputs { length samples.now ≤ length outputs.old }
    requires zero_from { ZeroFrom w h.now registers.old }
    ensures registers_after { registers.new ≡ registers_of h.now registers.old samples.now }
    ensures outputs_after { outputs.new ≡ outputs_of h.now registers.old samples.now
        ++ drop (length samples.now) outputs.old }
{
    for (i, x) in samples.iter().enumerate() {
        outputs[i] = sum(registers[0], h[0], *x).cast_signed();
        move_one(h, *x, w, registers);
    }
}
