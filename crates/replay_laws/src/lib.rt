// The laws of the packed map: theorems alone, their statements in specs/ and their proofs in proofs/.

#![tactic(auto)]
