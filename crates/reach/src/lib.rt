// The theory of tracing: definitions in specs/, theorems in proofs/, no code.

#![tactic(auto)]
