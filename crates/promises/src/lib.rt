// What the public calls promise, each under its name, and what these promises come to: a table and its theorems, and no code.
// See specs and proofs.
#![tactic(auto)]
