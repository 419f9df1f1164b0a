// What the receiving half holds after each change: laws alone, under proofs/.
#![tactic(auto)]
