#![tactic(auto)]

// Polishing in slices: its definition in specs/, its laws in proofs/. Holds no code.
