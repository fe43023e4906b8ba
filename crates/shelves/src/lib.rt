// Two makes of a shelf: one pack in a slice of words, and packs whose sectors stand on cards.
#![tactic(auto)]

pub mod cards;
pub mod flat;
