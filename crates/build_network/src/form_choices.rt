// Before a network is built: whether each tap has the form that is chosen for it.
ghost use Rattle.std.specs.Prelude.{◌≡◌, not, ℕ, ◌≤◌, ◌<◌, pos, length, get_or};
ghost use Rattle.std.specs.Option.{unwrap_or};
ghost use Rattle.word.specs.Bounds.{Coefficient};
ghost use Rattle.refusal.specs.Answer.{found_at};
ghost use Rattle.coefficient.specs.Parts.{parts_of};
ghost use Rattle.build_steps.specs.Answer.{no_such_form, missing_form};

// Whether the choice is the number of a form of n's odd part. Every odd part has a form, and 0 is the
// choice for a zero tap.
fn has_form(n: i32, choice: u32) -> bool
    ensures { result ≡ not (no_such_form (parts_of n) choice) }
{
    if choice == 0 {
        return true;
    }
    match coefficient::reduce(n) {
        None => false,
        Some(reduction) => { choice < form_listing::form_count(reduction.odd_part as i32) }
    }
}

// The first tap whose choice is not below the number of forms.
// Stays: its twin for a grid asks another rule, and one function would take it as a closure, no shorter.
pub fn first_without_form(coefficients: &[i32], choices: &[u32]) -> Option<usize>
    requires { length coefficients.now ≤ length choices.now }
    ensures first { found_at result ≡ missing_form coefficients.now choices.now }
    ensures by_index { (i : ℕ) → i < unwrap_or result (length coefficients.now) → Coefficient (get_or coefficients.now i (pos 0)) }
{
    for (i, n) in coefficients.iter().enumerate() {
        if !has_form(*n, choices[i]) {
            return Some(i);
        }
    }
    None
}
