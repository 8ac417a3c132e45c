// Every nearby cut set: definitions and laws only, in specs/ and proofs/.
#![tactic(auto)]
