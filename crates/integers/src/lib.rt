// Division of the integers and their laws, for other crates: see specs/ and proofs/.
#![tactic(auto)]
