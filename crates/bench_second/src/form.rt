// The least weight of a number and how many strings have it, from the high end: of the number x made
// of the bits passed, and of x + 1.
ghost use Rattle.std.specs.Prelude.{◌≡◌, ◌+◌, ◌^◌, ◌<◌, ◌≤◌};
ghost use Rattle.bench_second.specs.Inner.{of_odd_of, LeastFound};

use std::cmp::Ordering;

#[derive(Clone, Copy)]
pub struct LeastWeight {
    pub weight: u32,
    pub count: u32,
}

// Of an odd number, by the halves of its two neighbours.
#[tactic(auto, unfolding(crate::specs::Inner::of_odd_of))]
fn of_odd(below: LeastWeight, above: LeastWeight) -> LeastWeight
    requires { ((below.weight ≤ 33) × (above.weight ≤ 33)) × (below.count + above.count < 2 ^ 32) }
    ensures { result ≡ of_odd_of below above }
{
    match below.weight.cmp(&above.weight) {
        Ordering::Less => LeastWeight {
            weight: below.weight + 1,
            count: below.count,
        },
        Ordering::Greater => LeastWeight {
            weight: above.weight + 1,
            count: above.count,
        },
        Ordering::Equal => LeastWeight {
            weight: below.weight + 1,
            count: below.count + above.count,
        },
    }
}

// Of a magnitude of 32 bits.
pub fn least(magnitude: u32) -> LeastWeight
    ensures { LeastFound magnitude result }
{
    let mut here = LeastWeight {
        weight: 0,
        count: 1,
    };
    let mut next = LeastWeight {
        weight: 1,
        count: 1,
    };
    for place in (0..32u32).rev() {
        let odd = of_odd(here, next);
        if (magnitude >> place) % 2 == 0 {
            next = odd;
        } else {
            here = odd;
        }
    }
    here
}
