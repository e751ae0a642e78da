// The fixed search over pairs of places, and its table.
// The definitions that the contracts cite stand in specs/; specs/Lib.antt lists them. Nothing of this is offered to others.
#![tactic(auto)]

pub mod going;
pub mod looking;
pub mod table;
pub mod taking;
