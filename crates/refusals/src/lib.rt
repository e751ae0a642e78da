// Refusals: the enum of them, which gives each the paper's number, and in limits.rt what is too much or too little.
// The definitions that the contracts cite stand in specs/; specs/Lib.antt lists them. Nothing of this is offered to others.
#![tactic(auto)]

pub mod limits;
pub mod refusal;
