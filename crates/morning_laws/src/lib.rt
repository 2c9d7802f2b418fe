// Request 3 on the definitions: two orders of a morning's messages lead to the same corrections, and their posting lines are rearrangements of each other. specs/ has the laws and the theorem, and there is no code.
#![tactic(auto)]
