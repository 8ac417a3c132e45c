// Shares of the allowance: the definition in specs/, its laws and runs in proofs/. No code.
#![tactic(auto)]
