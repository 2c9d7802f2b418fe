// Request 5 on the definitions: with a register without code lines every call answers, writes and leaves what it did before; and registers and details with codes as tables. specs/ has the laws, the theorems and the tables, and there is no code.
#![tactic(auto)]
