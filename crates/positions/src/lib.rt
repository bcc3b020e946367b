// Document 01, "The session": positions and sets of positions, as the plain machine, the refusals and the session's cues read them.
// Definitions and laws, and no code.
#![tactic(auto)]
