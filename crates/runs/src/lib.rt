// Runs: items of so many bytes each, one behind the other at the start of a room, and one code that writes an item; and a number of two bytes.
// The definitions that the contracts cite stand in specs/; specs/Lib.antt lists them. Nothing of this is offered to others.
#![tactic(auto)]

pub mod item;
pub mod two_bytes;
