// Copies a pack from one shelf to another, sector by sector, and mends damaged sectors.
#![tactic(auto)]

pub mod copy;
pub mod mend;
