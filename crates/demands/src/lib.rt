// The demands on this software as theorems, over the definition and over the contracts of the calls. No code.
#![tactic(auto)]
