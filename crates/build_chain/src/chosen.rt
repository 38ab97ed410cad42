// The form that is chosen for an odd part.
ghost use Rattle.std.specs.Prelude.{◌≡◌, ◌^◌, ◌<◌, pos, length};
ghost use Rattle.signed_digit.specs.Forms.{listing};
ghost use Rattle.form_masks.specs.Form.{form_of};
ghost use Rattle.build_steps.specs.Chain.{chosen_form_of};

use form_masks::Form;

// The form of this number in the listing of v.
pub fn chosen_form(v: u32, choice: u32) -> Form
    requires { (v < 2 ^ 31) × (choice < length (listing 32 (pos v))) }
    ensures { result ≡ form_of (chosen_form_of v choice) }
{
    form_number::form_at(v as i32, choice)
}
