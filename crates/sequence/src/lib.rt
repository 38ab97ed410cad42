// Sums and tables given place by place: definitions in specs/ and their laws in proofs/; and a copy
// from table to table.
#![tactic(auto)]

ghost use Rattle.std.specs.Prelude.{◌≡◌, ◌++◌, ◌≤◌, length, take, drop};

// The first n elements, from one table to the other.
pub fn copy<T: Copy>(from: &[T], n: usize, to: &mut [T])
    requires { (n ≤ length from.now) × (n ≤ length to.old) }
    ensures { to.new ≡ take n from.now ++ drop n to.old }
{
    to[..n].copy_from_slice(&from[..n]);
}
