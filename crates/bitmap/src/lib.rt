// Tests on numbers, and words of 64 bits that hold the numbers that pass: definitions in specs/, lemmas in proofs/, and no code.
#![tactic(auto)]
