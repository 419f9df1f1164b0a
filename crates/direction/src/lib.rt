// One direction of the link, in true numbers: laws alone, under specs/ and proofs/.
#![tactic(auto)]
