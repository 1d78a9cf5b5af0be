// Layer 4: calls that the checker computes. There is no code here; a crate of its own lets them be computed while others are proved.
#![tactic(auto)]
