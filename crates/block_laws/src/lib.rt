// Theorems about flat schema blocks and formats (proofs/). No code: an edit here rechecks no caller's code, and an edit of code none of these.
#![tactic(auto)]
