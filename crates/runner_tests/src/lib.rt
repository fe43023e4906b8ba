// Tests of what a run writes down. There is nothing here to use.
#![tactic(auto)]

#[cfg(test)]
mod told;
