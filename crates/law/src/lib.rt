// Demand 3: the history of a pair and its theorems, under specs/ and proofs/.
#![tactic(auto)]
