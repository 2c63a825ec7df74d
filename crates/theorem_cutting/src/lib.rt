// Theorems over the definition: the card takes whatever the writer cuts. No code.
#![tactic(auto)]
