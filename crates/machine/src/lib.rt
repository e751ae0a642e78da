// The search and the checker over any machine: definitions and laws alone, in specs/Laws; specs/Lib.antt lists them. There is no code here.
#![tactic(auto)]
