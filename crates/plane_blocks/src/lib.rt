// Planes and masks 32 cells at a time: 32 rows of 32 bits are transposed, so that columns become rows.
#![tactic(auto)]

ghost use Rattle.std.specs.Prelude.{◌≡◌, ◌+◌, ◌*◌, ◌≤◌, ◌<◌, length};
ghost use Rattle.sequence.specs.UpTo.{up_to};
ghost use Rattle.plane_masks.specs.Planes.{cell_mask};
ghost use Rattle.plane_blocks.specs.Inner.{mixed, transposed, half_word};

type Rows = [u32; 32];

// One of the stages that transpose rows: each row is put together from two that are 16 apart.
fn stage(from: &Rows, j: u32, m: u32, to: &mut Rows)
    requires { j < 32 }
    ensures { to.new ≡ up_to 32 (mixed j m from.now) }
{
    let above = m << j;
    for q in 0..16usize {
        let low = from[q];
        let high = from[q + 16];
        to[2 * q] = (low & m) | ((high & m) << j);
        to[2 * q + 1] = ((low >> j) & m) | (high & above);
    }
}

// Bit b of row r goes to bit r of row b.
fn transpose(rows: &Rows, to: &mut Rows)
    ensures { to.new ≡ transposed rows.now }
{
    let mut spare = [0u32; 32];
    stage(rows, 16, 0x0000_ffff, to);
    stage(to, 8, 0x00ff_00ff, &mut spare);
    stage(&spare, 4, 0x0f0f_0f0f, to);
    stage(to, 2, 0x3333_3333, &mut spare);
    stage(&spare, 1, 0x5555_5555, to);
}

// The rows of a block: in each plane its 32 cells.
fn gather(table: &[u64], block: usize, rows: &mut Rows)
    requires { (128 ≤ length table.now) × (block < 8) }
    ensures { rows.new ≡ up_to 32 (half_word table.now block) }
{
    let j = block / 2;
    let shift = 32 * (block % 2);
    for (p, row) in rows.iter_mut().enumerate() {
        *row = ((table[4 * p + j] >> shift) % 0x1_0000_0000) as u32;
    }
}

// The masks that a table holds for the 32 cells of a block.
fn block_masks(table: &[u64], block: usize, masks: &mut Rows)
    requires { (128 ≤ length table.now) × (block < 8) }
    ensures { masks.new ≡ up_to 32 (λ b. cell_mask table.now (32 * block + b)) }
{
    let mut rows = [0u32; 32];
    gather(table, block, &mut rows);
    transpose(&rows, masks);
}

// The masks of the first cells of a block, as many as there is room for.
pub fn read_block(table: &[u64], block: usize, masks: &mut [u32])
    requires { (128 ≤ length table.now) × (block < 8) × (length masks.old ≤ 32) }
    ensures { masks.new ≡ up_to (length masks.old) (λ b. cell_mask table.now (32 * block + b)) }
{
    let mut all = [0u32; 32];
    block_masks(table, block, &mut all);
    let n = masks.len();
    masks.copy_from_slice(&all[..n]);
}
