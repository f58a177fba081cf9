// Theorems only: demand 3 over every list of calls at a desk.
#![tactic(auto)]
