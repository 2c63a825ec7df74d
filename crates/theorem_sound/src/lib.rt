// Theorems over the definition: from a sound state every event leads to a sound state. No code.
#![tactic(auto)]
