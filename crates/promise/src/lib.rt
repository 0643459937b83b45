#![tactic(auto)]

// What it means that a promise fixes its result (specs/Unique). Each library proves it of its own functions, in its proofs/Unique.
