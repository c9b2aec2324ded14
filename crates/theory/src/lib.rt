// Theorems about the meaning: statements in specs/, proofs in proofs/. No code.
#![tactic(auto)]
