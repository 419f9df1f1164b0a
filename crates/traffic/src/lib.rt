// What is on a line, in true numbers: laws alone, under specs/ and proofs/.
#![tactic(auto)]
