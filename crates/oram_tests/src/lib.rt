// Days of an Oram of one row and of two, with answers, logs and refusals written out by hand from the rules.
#![tactic(auto)]

#[cfg(test)]
mod one_row;
#[cfg(test)]
mod two_rows;
