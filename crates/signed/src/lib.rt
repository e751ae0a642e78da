// The signed cases and the edges, computed: definitions and proofs alone, in specs/; specs/Lib.antt lists them. There is no code here.
#![tactic(auto)]
