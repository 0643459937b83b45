#![tactic(auto)]

// The three signed demands, as theorems about the definitions that the functions' promises cite: see proofs/. There is no code here.
