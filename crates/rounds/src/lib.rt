// The rounds of a run as they are handed in and handed back, and one round's turn: definitions in specs/, laws in proofs/. No code.
#![tactic(auto)]
