// Theorems about listings read back; no code.

#![tactic(auto)]
