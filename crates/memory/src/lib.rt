// Lists of bytes, bits, words and ranges of numbers: definitions and laws that know no store. No code.
#![tactic(auto)]
