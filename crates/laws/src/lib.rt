// Mathematics with no airway in it: definitions in specs/, their laws in proofs/. No code.
#![tactic(auto)]
