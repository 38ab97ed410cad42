// The forms of all cells of a grid, written as planes.
ghost use Rattle.std.specs.Prelude.{◌≡◌, [], ◌++◌, map, ℕ, ◌≤◌, ◌<◌, length, drop};
ghost use Rattle.signed_digit.specs.Masks.{plus_mask, minus_mask};
ghost use Rattle.plane_masks.specs.Planes.{plane_words_of};
ghost use Rattle.plane_masks.specs.Grid.{chosen_forms};
ghost use Rattle.plane_masks.specs.Claims.{HasForm};

use form_number::form_at;
use plane_words::{clear, write_cell};

// The words of no cells.
fn clear_words(table: &mut [u64])
    requires { 128 ≤ length table.old }
    ensures { table.new ≡ plane_words_of [] ++ drop 128 table.old }
{
    let Some(words) = table.first_chunk_mut() else {
        unreachable!()
    };
    clear(words);
}

// Writes the planes of the form chosen for each coefficient.
// Stays: coefficients and choices are two tables, as C lends them and `chosen_forms` has them.
pub fn write_cells(coefficients: &[i32], choices: &[u32], plus: &mut [u64], minus: &mut [u64])
    requires sizes { (length coefficients.now ≤ 256) × (length choices.now ≡ length coefficients.now) }
    requires have_forms { (c : ℕ) → c < length coefficients.now → HasForm coefficients.now choices.now c }
    requires room { (128 ≤ length plus.old) × (128 ≤ length minus.old) }
    ensures plus { plus.new
        ≡ plane_words_of (map plus_mask (chosen_forms (length coefficients.now) coefficients.now choices.now))
        ++ drop 128 plus.old }
    ensures minus { minus.new
        ≡ plane_words_of (map minus_mask (chosen_forms (length coefficients.now) coefficients.now choices.now))
        ++ drop 128 minus.old }
{
    clear_words(plus);
    clear_words(minus);
    for (c, n) in coefficients.iter().enumerate() {
        let form = form_at(*n, choices[c]);
        write_cell(plus, c, form.plus);
        write_cell(minus, c, form.minus);
    }
}
