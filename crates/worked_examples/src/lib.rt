// Worked examples, computed by the definitions: document 01's replay example, a published trace, the first filter,
// loads, a power cut. No code.
#![tactic(auto)]
