// The sessions of samples/stored, computed by the definition itself to the text that is stored beside each. No code.
#![tactic(auto)]
