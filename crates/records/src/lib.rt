// Records: their 8 bytes, and the kinds.
// The definitions that the contracts cite stand in specs/; specs/Lib.antt lists them. Nothing of this is offered to others.
#![tactic(auto)]

pub mod kind;
pub mod record;
