// The bounds of a coefficient and the laws of machine words: definitions in specs/, theorems in proofs/; and
// a choice without a jump.
#![tactic(auto)]

ghost use Rattle.std.specs.Prelude.{◌≡◌, cond};

// One of two values, in code that a compiler turns into a move instead of a jump.
pub fn choose<T: Copy>(first: bool, a: T, b: T) -> T
    ensures { result ≡ cond first a b }
{
    if first { a } else { b }
}
