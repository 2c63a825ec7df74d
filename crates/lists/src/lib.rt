// Lists of bytes: definitions and laws that every layer above cites. No code.
#![tactic(auto)]
