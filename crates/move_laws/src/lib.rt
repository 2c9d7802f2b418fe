// Request 6 on the definitions: a register's text moved to the newer form and back, or to the older and back, is the text begun with, and to the older exactly those are moved that an old text moves to; and moves of texts as a table. specs/ has the laws, the theorems and the table, and there is no code.
#![tactic(auto)]
