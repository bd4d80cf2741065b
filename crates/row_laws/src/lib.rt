// Theorems about rows: the grammar and the walk agree, a row has one value, what is written reads back (proofs/). No code.
#![tactic(auto)]
