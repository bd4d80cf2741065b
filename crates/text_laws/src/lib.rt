// Theorems about numbers as text: the text fixes the number, and has no leading zero (proofs/). No code.
#![tactic(auto)]
