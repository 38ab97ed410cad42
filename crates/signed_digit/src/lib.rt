// The theory of minimal signed-digit strings: definitions in specs/, theorems in proofs/, and no code.
#![tactic(auto)]
