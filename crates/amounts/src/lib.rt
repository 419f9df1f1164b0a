// True amounts of units behind the wrapped counters: laws alone, under specs/ and proofs/.
#![tactic(auto)]
