// What an RL11 controller stands on: the addresses of packs, the interface of a shelf of packs, and that of a bus memory.
#![tactic(auto)]

pub mod address;
pub mod figures;
pub mod host;
pub mod kinds;
pub mod marks;
pub mod memory;
pub mod same;
pub mod shelf;
