// What the crates below give together: demand 3 whole in specs/ and proofs/, the proved figures in one list, and no code.
#![tactic(auto)]
