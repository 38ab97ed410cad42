// A second implementation of what the bench figures need, apart from the crates that they test.
#![tactic(auto)]

pub mod form;
pub mod tap;
