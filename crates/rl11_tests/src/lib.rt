// Tests of the controller, by subject. There is nothing here to use.
#![tactic(auto)]

#[cfg(test)]
mod makes;
#[cfg(test)]
mod presses;
#[cfg(test)]
mod registers;
#[cfg(test)]
mod support;
