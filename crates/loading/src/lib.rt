// A fresh store, beginning a call with it, loading a card into a store, and entering a pattern card.
// The definitions that the contracts cite stand in specs/; specs/Lib.antt lists them. Nothing of this is offered to others.
#![tactic(auto)]

pub mod beginning;
pub mod card;
pub mod entering;
pub mod fresh;
