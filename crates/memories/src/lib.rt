// Two makes of a bus memory: a slice of words, and two memories one above the other.
#![tactic(auto)]

pub mod board;
pub mod stack;
