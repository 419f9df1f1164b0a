// A quiet round as a list of steps, so that a history can speak of it: laws alone, under specs/ and proofs/.
#![tactic(auto)]
