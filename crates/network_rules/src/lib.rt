// Whether a row keeps the row rule, and a tap row its own.
#![tactic(auto)]

mod row_rule;
mod tap_row_rule;

ghost use Rattle.std.specs.Prelude.{◌≡◌, ◌^◌, ◌≤◌, ◌<◌};
ghost use Rattle.network.specs.RowRule.{lifted};

pub use row_rule::keeps_row_rule;
pub use tap_row_rule::tap_product;

// 2^s times a value.
fn lift(s: u32, value: u32) -> u64
    requires { s ≤ 31 }
    ensures { (result ≡ lifted s value) × (result < 2 ^ 63) }
{
    (value as u64) << s
}
