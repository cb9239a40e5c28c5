// Demand 3 of the calls on plain numbers that the caller lends: definitions and a theorem, no code.
#![tactic(auto)]
