// Running calls: what `run` answers and leaves, and the claim about all calls. No code.
#![tactic(auto)]
