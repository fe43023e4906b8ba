// An RL11 disk controller with four drives, over any shelf of packs and any bus memory.
#![tactic(auto)]

mod bus;
pub mod controller;
pub mod drive;
pub mod figures;
pub mod keeping;
mod looks;
pub mod orders;
mod panel;
pub mod registers;
mod sends;
pub mod state;
mod words;
