// Document 01's bench rows that hold by proof; no code.
#![tactic(auto)]
