// Shape lasts: a step of an end in shape leaves it in shape. Laws alone, under proofs/.
#![tactic(auto)]
