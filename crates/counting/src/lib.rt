// Definitions and laws on what a call promises that may refuse, on tests in a row and on each number below n; no code.
#![tactic(auto)]
