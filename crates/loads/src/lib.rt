// Loads as calls, and the demands of lists of calls and loads: theorems about the definitions. No code.
#![tactic(auto)]
