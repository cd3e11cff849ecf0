// The twin answers as the table says: laws only, in specs/ and proofs/.
#![tactic(auto)]
