// How the minimal forms of a coefficient hang together: definitions in specs/, theorems in proofs/, and no code.
#![tactic(auto)]
