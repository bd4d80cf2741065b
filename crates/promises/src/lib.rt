// The page of promises (proofs/Promises.antt): what is held, each in one statement that is proved by a citation. No code.
#![tactic(auto)]
