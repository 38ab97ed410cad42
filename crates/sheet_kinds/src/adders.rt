// The adders of a filter: those of its rows, and those that join its taps.
ghost use Rattle.std.specs.Prelude.{◌≡◌, ◌+◌, ◌-◌, ◌^◌, ◌≤◌, ◌<◌, length};
ghost use Rattle.network.specs.Adders.{nonzero_taps_of, joining_adders_of};

fn nonzero_taps(coefficients: &[i32]) -> usize
    ensures { result ≡ nonzero_taps_of coefficients.now }
{
    coefficients.iter().filter(|value| **value != 0).count()
}

// The first nonzero tap needs none.
fn joining_adders(coefficients: &[i32]) -> usize
    ensures { result ≡ joining_adders_of coefficients.now }
{
    nonzero_taps(coefficients).saturating_sub(1)
}

// Of n rows and the taps of these coefficients.
pub fn adders(n: usize, coefficients: &[i32]) -> u32
    requires { (1 ≤ n) × (n + length coefficients.now < 2 ^ 32) }
    ensures { result ≡ n - 1 + joining_adders_of coefficients.now }
{
    let joining = joining_adders(coefficients);
    (n - 1 + joining) as u32
}
