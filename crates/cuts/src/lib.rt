// Calls that are cut, and their restart: definitions and theorems over the layout's calls. Document 02, request 8. No code.
#![tactic(auto)]
