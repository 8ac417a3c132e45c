#![tactic(auto)]

// Lin's k-optimality (1965) in links alone: the definition in specs/, in proofs/ that cut sets and patterns miss no exchange. No code.
