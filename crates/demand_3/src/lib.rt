// Demand 3 of what the functions of the seven calls return: definitions and a theorem, no code.
#![tactic(auto)]
