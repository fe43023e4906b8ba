// Tests of scripts, by subject. There is nothing here to use.
#![tactic(auto)]

#[cfg(test)]
mod faulty;
#[cfg(test)]
mod read;
#[cfg(test)]
mod support;
