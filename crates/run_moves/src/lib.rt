// The registers in passes of four samples, raised, as words. Place j holds output j for j below 4,
// and then register j - 4.
#![tactic(auto)]

ghost use Rattle.std.specs.Prelude.{◌≡◌, List, ℕ, ◌≤◌, ◌<◌, ◌+◌, length, get_or};
ghost use Rattle.sequence.specs.Inner.{front};
ghost use Rattle.run_convolution.specs.Sums.{held};
ghost use Rattle.run_convolution.specs.Bounds.{Words};
ghost use Rattle.run_tables.specs.Inner.{Raised};
ghost use Rattle.run_moves.specs.Inner.{placed};

use run_products::{four, lowered, raised};
use run_tables::Tables;

// The raised registers of a running call, and the bias that they share.
#[derive(Drop)]
pub struct Line {
    pub bias: u64,
    pub words: [u64; 260],
}

// What place j comes to, from the word that it starts from.
pub fn place(stored: &[u64; 264], j: usize, word: u64, y: [u16; 4]) -> u64
    requires { j < 260 }
    ensures { result ≡ placed stored.now y j word }
{
    four(
        word,
        [stored[j + 4], stored[j + 3], stored[j + 2], stored[j + 1]],
        y,
    )
}

// The first n words, from those four places on.
pub fn slide(stored: &[u64; 264], y: [u16; 4], n: usize, words: &mut [u64; 260])
    requires { n ≤ 256 }
    ensures moved { (k : ℕ) → k < n → get_or words.new k 0 ≡ placed stored.now y (k + 4) (get_or words.old (k + 4) 0) }
    ensures kept { (k : ℕ) → n ≤ k → get_or words.new k 0 ≡ get_or words.old k 0 }
{
    for k in 0..n {
        words[k] = place(stored, k + 4, words[k + 4], y);
    }
}

// The registers in use, raised.
pub fn raise(tables: &Tables<'_>, registers: &[u64; 256], line: &mut Line)
    ensures bias { line.new.bias ≡ line.old.bias }
    ensures raised { Raised tables.now.width tables.now.offsets.now line.new.bias registers.now line.new.words }
{
    for k in 0..tables.width {
        line.words[k] = raised(registers[k], tables.offsets[k + 5], line.bias);
    }
}

// The registers in use, from words that were raised.
pub fn lower(tables: &Tables<'_>, line: &Line, registers: &mut [u64; 256])
    ensures { (r : List ℕ) → Words r → Raised tables.now.width tables.now.offsets.now line.now.bias r line.now.words
        → registers.new ≡ front (held r) registers.old tables.now.width }
{
    for k in 0..tables.width {
        registers[k] = lowered(line.words[k], tables.offsets[k + 5], line.bias);
    }
}
