// All cells of a grid: their forms written as planes, and their masks read from planes.
#![tactic(auto)]

pub mod reading;
pub mod writing;
