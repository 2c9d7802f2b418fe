// Demand 3 on the definitions: after any list of calls the balance of each bank holds. specs/ has the laws and the theorem, and there is no code.
#![tactic(auto)]
