// Packets that leave a list by category: laws alone, under specs/ and proofs/.
#![tactic(auto)]
