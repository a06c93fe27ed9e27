// The laws of the tracer: theorems alone, their statements in specs/ and their proofs in proofs/.

#![tactic(auto)]
