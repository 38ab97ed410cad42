// Digit planes: a grid written as planes, and planes read back. Functions for C, declared in
// include/fir.h.
#![tactic(auto)]

ghost use Rattle.fir_planes.specs.Planes.{PlanesWrittenWord, PlanesReadWord};

use fir_words::answer_word;
use plane_grid::{read_planes, write_planes};

// The form chosen for each cell of a grid, as digit planes in the two mask tables.
#[unsafe(no_mangle)]
pub extern "C" fn fir_write_planes(
    height: usize,
    width: usize,
    coefficients: &[i32],
    choices: &[u32],
    plus: &mut [u64],
    minus: &mut [u64],
) -> u64
    ensures { PlanesWrittenWord height width coefficients.now choices.now plus.old minus.old
        result plus.new minus.new }
{
    answer_word(write_planes(height, width, coefficients, choices, plus, minus))
}

// The two masks of each cell that the planes hold.
#[unsafe(no_mangle)]
pub extern "C" fn fir_read_planes(
    height: usize,
    width: usize,
    plus: &[u64],
    minus: &[u64],
    cell_plus: &mut [u32],
    cell_minus: &mut [u32],
) -> u64
    ensures { PlanesReadWord height width plus.now minus.now cell_plus.old cell_minus.old
        result cell_plus.new cell_minus.new }
{
    answer_word(read_planes(height, width, plus, minus, cell_plus, cell_minus))
}
