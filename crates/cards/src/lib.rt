// Cards: what their bytes say, and the refusals 1, 2 and 3.
// The definitions that the contracts cite stand in specs/; specs/Lib.antt lists them.
#![tactic(auto)]

pub mod examine;
pub mod letters;
