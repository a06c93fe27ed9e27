// The laws of the views: theorems alone, their statements in specs/ and their proofs in proofs/.

#![tactic(auto)]
