// Definitions and laws alone: see specs/. There is no code here.
#![tactic(auto)]
