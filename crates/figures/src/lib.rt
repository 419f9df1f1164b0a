// The twelve worked figures of document 01, as one table under one claim: see specs/Figures.antt and proofs/Figures.antt.
// No code: the claim is about the definitions that the promises of `counters` and `packets` cite. Assumes nothing.
#![tactic(auto)]
