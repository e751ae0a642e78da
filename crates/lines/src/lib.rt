// What a program needs that answers its input line by line: the lines, what a line's keys say, the rooms that it lends, and writing the
// answers.
#![tactic(auto)]

pub mod keys;
pub mod parts;
pub mod printing;
pub mod reading;
pub mod rooms;
