// The level store's layout and calls, as definitions: everything that a reader must believe. No code.
#![tactic(auto)]
