// Demand 3 of the code: proofs/Chain.antt; its power cuts: proofs/CutChain.antt. The calls are the crates format, calls, restart and
// lookup.
#![tactic(auto)]
