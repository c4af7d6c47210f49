// Laws of lists, options and tests, for other crates: see specs/ and proofs/.
#![tactic(auto)]
