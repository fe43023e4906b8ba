// Makes of a memory and of a shelf outside the library.
#![tactic(auto)]

pub mod one_word;
pub mod stamp;
#[cfg(test)]
mod tests;
