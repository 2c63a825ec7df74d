// Theorems over the definition: secrets stay secret. No code.
#![tactic(auto)]
