// The cases are definitions and computations only: see specs/ and proofs/.
#![tactic(auto)]
