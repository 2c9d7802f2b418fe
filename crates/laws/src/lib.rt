// What all crates above share: laws on lists, texts and numbers, and the records that contracts are made of. There is no code.
#![tactic(auto)]
