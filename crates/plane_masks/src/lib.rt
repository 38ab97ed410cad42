// Digit planes and the masks of their cells: definitions in specs/, theorems in proofs/, and the type of a
// mask table.
#![tactic(auto)]

// Four words for each of 32 planes.
pub type MaskTable = [u64; 128];
