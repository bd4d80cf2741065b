// The calls' own contracts: each fixes its answer and what it writes (proofs/OneAnswer.antt, proofs/Steps.antt), and what follows for demand 3 (proofs/Demand3.antt). No code.
#![tactic(auto)]
