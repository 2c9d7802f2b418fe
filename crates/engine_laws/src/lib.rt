// The engine area: that an area holds at most one engine, that an acceptance leaves one, and that accepted calls keep the limits. Definitions and laws only.
#![tactic(auto)]
