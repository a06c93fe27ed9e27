// The laws of the instruction layer: theorems alone, their statements in specs/ and their proofs in proofs/.

#![tactic(auto)]
