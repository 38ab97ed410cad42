// Building a network by document 01's steps, by value: definitions in specs/, theorems in proofs/, and no code.
#![tactic(auto)]
