// How many registers are in use.
ghost use Rattle.std.specs.Prelude.{◌≡◌, true, ℕ, ◌+◌, ◌<◌, ◌≤◌, pos, length, get_or};
ghost use Rattle.run_tables.specs.Inner.{ZeroFrom};

// Eight registers from k on are 0; without a jump for each.
// Stays: `all`, and arrays of eight compared, were slower on calls of few samples.
fn registers_idle(registers: &[u64], k: usize) -> bool
    requires { (k + 8 ≤ 256) × (256 ≤ length registers.now) }
    ensures { result ≡ true → (i : ℕ) → k ≤ i → i < k + 8 → get_or registers.now i 0 ≡ 0 }
{
    let mut idle = true;
    for j in k..k + 8 {
        idle &= registers[j] == 0;
    }
    idle
}

// Eight coefficients from k on are 0.
fn coefficients_idle(h: &[i32; 256], k: usize) -> bool
    requires { k + 8 ≤ 256 }
    ensures { result ≡ true → (i : ℕ) → k ≤ i → i < k + 8 → get_or h.now i (pos 0) ≡ pos 0 }
{
    let mut idle = true;
    for j in k..k + 8 {
        idle &= h[j] == 0;
    }
    idle
}

// Eight of both. In one loop they took a sixth more instructions.
fn eight_idle(h: &[i32; 256], registers: &[u64], k: usize) -> bool
    requires { (k + 8 ≤ 256) × (256 ≤ length registers.now) }
    ensures { result ≡ true → ZeroFrom (k + 8) h.now registers.now → ZeroFrom k h.now registers.now }
{
    registers_idle(registers, k) & coefficients_idle(h, k)
}

// The same as `used`, as far as it goes by eights.
fn used_eights(h: &[i32; 256], registers: &[u64]) -> usize
    requires { 256 ≤ length registers.now }
    ensures width_to { result ≤ 256 }
    ensures zero_from { ZeroFrom result h.now registers.now }
{
    for block in (0..32usize).rev() {
        if !eight_idle(h, registers, 8 * block) {
            return 8 * block + 8;
        }
    }
    0
}

// From the number returned on, registers and coefficients are 0.
pub fn used(h: &[i32; 256], registers: &[u64]) -> usize
    requires { 256 ≤ length registers.now }
    ensures width_to { result ≤ 256 }
    ensures zero_from { ZeroFrom result h.now registers.now }
{
    let w = used_eights(h, registers);
    for k in (0..w).rev() {
        if (registers[k] != 0) | (h[k] != 0) {
            return k + 1;
        }
    }
    0
}
