// Demand 3, "The piano behind a cue", and document 01, "Demand 3 is a single claim about the list as a whole": the theorem, and no code.
#![tactic(auto)]
