// Scripts of a test bench of the controller, read from text.
#![tactic(auto)]

mod arguments;
mod echoes;
pub mod faults;
mod keywords;
mod lines;
mod numbers;
pub mod scripts;
pub mod setup;
pub mod steps;
mod words;
