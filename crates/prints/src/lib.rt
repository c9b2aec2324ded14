// Theorems about the program's print: what it depends on, and what it does not. No code.
#![tactic(auto)]
