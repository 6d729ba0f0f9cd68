// Definitions and laws only: no code.
#![tactic(auto)]
