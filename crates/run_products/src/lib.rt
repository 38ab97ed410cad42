// Registers and products as 64-bit words: one product with its sign, and four at a time in offset
// binary, where a number is stored with half its range added, so that a product of two is one
// multiplication without a sign. What the added halves bring in is not taken off product by product:
// for as long as samples pass, a sum stays raised by an offset, which the 2^15 in every sample leaves,
// and by a bias, which the 2^31 in every coefficient leaves.
#![tactic(auto)]

ghost use Rattle.std.specs.Prelude.{◌≡◌, ◌+◌, ◌*◌, ◌%◌, ◌^◌, ◌≤◌, pos, ◌+ℤ◌, ◌*ℤ◌};
ghost use Rattle.run_convolution.specs.Words.{wrapped};
ghost use Rattle.run_products.specs.Inner.{coefficient_in, sample_in, four_products, offset_below_of, bias_after_of, raised_by};

fn product(c: i32, x: i16) -> i64
    ensures { result ≡ c *ℤ x }
{
    (c as i64) * (x as i64)
}

// A register and the product of a coefficient and a sample.
pub fn sum(register: u64, c: i32, x: i16) -> u64
    ensures { result ≡ wrapped (pos register +ℤ c *ℤ x) }
{
    register.wrapping_add(product(c, x).cast_unsigned())
}

// A coefficient with 2^31 added.
pub fn offset_coefficient(n: i32) -> u64
    ensures { coefficient_in result ≡ n }
{
    n.cast_unsigned().wrapping_add(0x8000_0000) as u64
}

// A sample with 2^15 added.
pub fn offset_sample(x: i16) -> u16
    ensures { sample_in result ≡ x }
{
    x.cast_unsigned().wrapping_add(0x8000)
}

// One multiplication without a sign.
fn part(c: u64, y: u16) -> u64
    ensures product { result ≡ (c % 2 ^ 32) * y }
    ensures bound { result ≤ 2 ^ 48 }
{
    (c % 0x1_0000_0000) * (y as u64)
}

// A register and four products of stored numbers.
// Stays: four products by name, as `four_products` has them: a loop over them is no plainer and no faster.
#[tactic(auto, unfolding(crate::specs::Inner::four_products))]
pub fn four(register: u64, c: [u64; 4], y: [u16; 4]) -> u64
    ensures { result ≡ four_products register c y }
{
    let p0 = part(c[0], y[0]);
    let p1 = part(c[1], y[1]);
    let p2 = part(c[2], y[2]);
    let p3 = part(c[3], y[3]);
    register.wrapping_add(p0 + p1 + p2 + p3)
}

// 2^64 - 2^46, which is -(2^15 · 2^31) modulo 2^64. A coefficient is stored with 2^31 added, so 2^15
// times what is stored is 2^46 too much.
const LESS_2_TO_46: u64 = 0xffff_c000_0000_0000;

// The offset of a place, from that of the place after it and the coefficient between them.
pub fn offset_below(offset: u64, c: u64) -> u64
    ensures { result ≡ offset_below_of offset c }
{
    let by = LESS_2_TO_46.wrapping_add(0x8000 * (c % 0x1_0000_0000));
    offset.wrapping_add(by)
}

// The bias four samples on.
pub fn bias_after(bias: u64, y: [u16; 4]) -> u64
    ensures { result ≡ bias_after_of bias y }
{
    let sum = (y[0] as u64) + (y[1] as u64) + (y[2] as u64) + (y[3] as u64);
    bias.wrapping_add(0x8000_0000 * sum)
}

pub fn raised(n: u64, offset: u64, bias: u64) -> u64
    ensures { result ≡ raised_by offset bias n }
{
    n.wrapping_add(offset.wrapping_add(bias))
}

// The word that was raised.
pub fn lowered(n: u64, offset: u64, bias: u64) -> u64
    ensures { raised_by offset bias result ≡ n }
{
    n.wrapping_sub(offset.wrapping_add(bias))
}
