// The cell of a number: its leading digits, which its factors 2 do not change.
ghost use Rattle.std.specs.Prelude.{◌≡◌, ◌+◌, ◌-◌, ◌^◌, ◌<◌, nat_abs};
ghost use Rattle.build_sieve.specs.Inner.{cell_of};

// The leading digits of x below the first, whatever its sign and its factors 2.
fn cell(x: i32, shift: u32) -> u32
    requires { shift < 32 }
    ensures { result ≡ cell_of shift (nat_abs x) }
{
    let high = ((x as f64).to_bits() >> 32) as u32;
    (high << 12) >> shift
}

// The same of a number that is not negative.
pub fn cell_of(x: u32, shift: u32) -> u32
    requires { (shift < 32) × (x < 2 ^ 31) }
    ensures { result ≡ cell_of shift x }
{
    cell(x as i32, shift)
}

// The same of a difference.
pub fn cell_between(a: u32, b: u32, shift: u32) -> u32
    requires { (shift < 32) × (a < 2 ^ 31) × (b < 2 ^ 31) }
    ensures { result ≡ cell_of shift ((a - b) + (b - a)) }
{
    cell((a as i32) - (b as i32), shift)
}
