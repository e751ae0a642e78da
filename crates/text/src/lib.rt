// Text as bytes, read from the left and laid down: pieces as they stand, lower-case hex, decimals without leading zeros, and lines of these
// with names. The definitions that the contracts cite stand in specs/; specs/Lib.antt lists them.
#![tactic(auto)]

pub mod decimal;
pub mod hex;
pub mod named;
pub mod reading;
pub mod writing;
