// What comes of one direction while nothing is lost: laws alone, under specs/ and proofs/.
#![tactic(auto)]
