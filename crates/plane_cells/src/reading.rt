// The masks of all cells of a grid, read from the planes of one table.
ghost use Rattle.std.specs.Prelude.{◌≡◌, ◌≤◌, length};
ghost use Rattle.plane_masks.specs.Planes.{cell_masks};

use plane_blocks::read_block;
use plane_words::read_cell;

// Cell by cell.
fn singly(table: &[u64], masks: &mut [u32])
    requires { (128 ≤ length table.now) × (length masks.old ≤ 256) }
    ensures { masks.new ≡ cell_masks (length masks.old) table.now }
{
    for (c, mask) in masks.iter_mut().enumerate() {
        *mask = read_cell(table, c);
    }
}

// 32 cells at a time.
fn by_blocks(table: &[u64], masks: &mut [u32])
    requires { (128 ≤ length table.now) × (length masks.old ≤ 256) }
    ensures { masks.new ≡ cell_masks (length masks.old) table.now }
{
    let cells = masks.len();
    for block in 0..cells.div_ceil(32) {
        let from = 32 * block;
        let to = (from + 32).min(cells);
        read_block(table, block, &mut masks[from..to]);
    }
}

// The masks of as many cells as there is room for. Up to three cells take less time one by one.
pub fn read_masks(table: &[u64], masks: &mut [u32])
    requires { (128 ≤ length table.now) × (length masks.old ≤ 256) }
    ensures { masks.new ≡ cell_masks (length masks.old) table.now }
{
    if masks.len() < 4 {
        singly(table, masks);
    } else {
        by_blocks(table, masks);
    }
}
