// The C face: calls whose figures the checker computes. There is no code here; a crate of its own lets them be computed while others are proved.
#![tactic(auto)]
