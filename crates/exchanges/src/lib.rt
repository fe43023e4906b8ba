// What is said to a controller and what it answers: calls, answers and refusals as values.
#![tactic(auto)]

pub mod calls;
pub mod refusals;
