// The laws of the listing: theorems alone, their statements in specs/ and their proofs in proofs/.

#![tactic(auto)]
