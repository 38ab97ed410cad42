// Before planes are written: whether each cell has the form that is chosen for it.
ghost use Rattle.std.specs.Prelude.{◌≡◌, ltb, length};
ghost use Rattle.refusal.specs.Answer.{found_at};
ghost use Rattle.signed_digit.specs.Forms.{listing};
ghost use Rattle.plane_masks.specs.Grid.{formless_cell};

// Whether the choice is the number of a form of n. Every coefficient has a form.
fn has_form(n: i32, choice: u32) -> bool
    ensures { result ≡ ltb choice (length (listing 32 n)) }
{
    choice == 0 || choice < form_listing::form_count(n)
}

// The first cell whose choice is not below the number of forms.
pub fn first_without_form(coefficients: &[i32], choices: &[u32]) -> Option<usize>
    requires { length choices.now ≡ length coefficients.now }
    ensures { found_at result ≡ formless_cell (length coefficients.now) coefficients.now choices.now }
{
    for (c, n) in coefficients.iter().enumerate() {
        if !has_form(*n, choices[c]) {
            return Some(c);
        }
    }
    None
}
