// Swaps through one and two levels, and refusals at the edges of the card, written out by hand from the rules.
#![tactic(auto)]

#[cfg(test)]
mod one_level;
#[cfg(test)]
mod setup;
#[cfg(test)]
mod two_levels;
