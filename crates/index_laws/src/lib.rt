// Theorems about the index: what its records hold, what check accepts, what extending comes to, and row n (proofs/). No code.
#![tactic(auto)]
