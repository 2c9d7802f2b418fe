// Banking days on the definitions: after any list of calls the day is one, and what turns write is dated on one. specs/ has the laws and the theorems, and there is no code.
#![tactic(auto)]
