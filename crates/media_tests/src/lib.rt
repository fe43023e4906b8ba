// Tests of the library, by subject. There is nothing here to use.
#![tactic(auto)]

#[cfg(test)]
mod addresses;
#[cfg(test)]
mod boards;
#[cfg(test)]
mod card_shelves;
#[cfg(test)]
mod copies;
#[cfg(test)]
mod flat_shelves;
#[cfg(test)]
mod same_packs;
#[cfg(test)]
mod stacks;
#[cfg(test)]
mod support;
