// Theorems about the layout's definitions: demands 2 and 3 of document 01. No code.
#![tactic(auto)]
