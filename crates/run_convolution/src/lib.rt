// What running samples through coefficients and registers gives: definitions in specs/, the sums of
// whole numbers that it comes to in proofs/, and no code.
#![tactic(auto)]
