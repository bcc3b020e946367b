// Document 01, "The session": the plain machine and the refusals it meets. Definitions, their laws and the bench rows, and no code.
#![tactic(auto)]
