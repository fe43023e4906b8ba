// Runs a script on a controller, and writes the answers down.
#![tactic(auto)]

mod answers;
mod benches;
mod looks;
mod numerals;
mod rooms;
mod sessions;
mod steps;
pub mod transcripts;
