// Document 01 as definitions: specs/ has them all, and there is no code.
#![tactic(auto)]
