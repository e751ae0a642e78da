// The store: finding, writing and making records in the lent work room, each of which asks that the store is good; and what a call works with.
// The definitions that the contracts cite stand in specs/; specs/Lib.antt lists them. Nothing of this is offered to others.
#![tactic(auto)]

pub mod finding;
pub mod interning;
pub mod making;
pub mod merging;
pub mod room;
pub mod work;
pub mod writing;
