// The sides of a grid and the lengths of the tables lent for it.
ghost use Rattle.std.specs.Prelude.{◌≡◌, ◌*◌, MatchResult};
ghost use Rattle.refusal.specs.Answer.{turned_down_of};
ghost use Rattle.plane_masks.specs.Grid.{bad_side_of, bad_sides_of, short_table_of, sizes_answer};
ghost use Rattle.plane_masks.specs.Claims.{Fits};

use refusal::Refusal;

// Whether a side is none of 1 to 16.
fn bad_side(side: usize) -> bool
    ensures { result ≡ bad_side_of side }
{
    side == 0 || side > 16
}

// Whether a side of the grid is.
fn bad_sides(height: usize, width: usize) -> bool
    ensures { result ≡ bad_sides_of height width }
{
    bad_side(height) || bad_side(width)
}

// Of both mask tables, and of the two tables with an element per cell.
// Stays: the lengths and not the tables, which are of three types, some mutable; an edit names the first test.
#[derive(Clone, Copy)]
pub struct Lengths {
    pub plus: usize,
    pub minus: usize,
    pub first: usize,
    pub second: usize,
}

// Whether one of the lengths is too small.
fn short_table(cells: usize, lengths: Lengths) -> bool
    ensures { result ≡ short_table_of cells lengths.plus lengths.minus lengths.first lengths.second }
{
    let Lengths {
        plus,
        minus,
        first,
        second,
    } = lengths;
    plus < 128 || minus < 128 || first < cells || second < cells
}

// The number of cells, where the sides are those of a grid and the tables are long enough.
pub fn check(height: usize, width: usize, lengths: Lengths) -> Result<usize, Refusal>
    ensures { MatchResult result
        (λ cells. (cells ≡ height * width)
        × Fits height width lengths.plus lengths.minus lengths.first lengths.second)
        (λ r. sizes_answer height width lengths.plus lengths.minus lengths.first lengths.second ≡ turned_down_of r) }
{
    if bad_sides(height, width) {
        return Err(Refusal::GridSides);
    }
    let cells = height * width;
    if short_table(cells, lengths) {
        return Err(Refusal::ShortTable);
    }
    Ok(cells)
}
