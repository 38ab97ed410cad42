// A grid of coefficients as digit planes, and planes back to the masks of each cell.
#![tactic(auto)]

mod choices;
mod sizes;

ghost use Rattle.plane_masks.specs.Written.{PlanesWritten, PlanesRead};
ghost use Rattle.refusal.specs.Answer.{answer_of};

use plane_cells::reading::read_masks;
use plane_cells::writing::write_cells;
use plane_words::first_overlap;
use refusal::Refusal;
use sizes::Lengths;

// The form chosen for each cell of a grid, as digit planes in the two mask tables. The tables are
// written only where all is accepted.
// Stays: the sides and the tables are apart, as the C interface has them.
pub fn write_planes(
    height: usize,
    width: usize,
    coefficients: &[i32],
    choices: &[u32],
    plus: &mut [u64],
    minus: &mut [u64],
) -> Result<(), Refusal>
    ensures { PlanesWritten height width coefficients.now choices.now plus.old minus.old
        (answer_of result) plus.new minus.new }
{
    let lengths = Lengths {
        plus: plus.len(),
        minus: minus.len(),
        first: coefficients.len(),
        second: choices.len(),
    };
    let cells = sizes::check(height, width, lengths)?;
    let coefficients = &coefficients[..cells];
    let choices = &choices[..cells];
    if let Some(cell) = choices::first_without_form(coefficients, choices) {
        return Err(Refusal::NoSuchForm(cell as u32));
    }
    write_cells(coefficients, choices, plus, minus);
    Ok(())
}

// The two masks of each cell that the planes hold: the places of its 1s, and of its -1s. The tables are
// written only where all is accepted.
pub fn read_planes(
    height: usize,
    width: usize,
    plus: &[u64],
    minus: &[u64],
    first: &mut [u32],
    second: &mut [u32],
) -> Result<(), Refusal>
    ensures { PlanesRead height width plus.now minus.now first.old second.old
        (answer_of result) first.new second.new }
{
    let lengths = Lengths {
        plus: plus.len(),
        minus: minus.len(),
        first: first.len(),
        second: second.len(),
    };
    let cells = sizes::check(height, width, lengths)?;
    if let Some(cell) = first_overlap(plus, minus, cells) {
        return Err(Refusal::MasksOverlap(cell as u32));
    }
    read_masks(plus, &mut first[..cells]);
    read_masks(minus, &mut second[..cells]);
    Ok(())
}
