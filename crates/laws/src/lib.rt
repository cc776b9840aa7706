// Laws of the layout's definitions that code and theorems cite. No code.
#![tactic(auto)]
