#![tactic(auto)]

// The way back of a move, as a move. Definitions and laws are in specs/ and proofs/.
