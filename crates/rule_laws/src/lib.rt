// Laws about the definitions of `rules`; there is no code.
#![tactic(auto)]
