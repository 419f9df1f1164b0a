// What may come of each step: laws alone, under specs/ and proofs/.
#![tactic(auto)]
