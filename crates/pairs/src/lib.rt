// What comparing and checking share: pair records, the number 6, the letters tried, and opening two cards.
// The definitions that the contracts cite stand in specs/; specs/Lib.antt lists them. Nothing of this is offered to others.
#![tactic(auto)]

pub mod letters;
pub mod opening;
pub mod pair;
pub mod room;
pub mod table;
