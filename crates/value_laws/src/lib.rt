// Theorems about value tables and about writing (proofs/). No code: an edit here rechecks no caller's code, and an edit of code none of these.
#![tactic(auto)]
