// Whole requests on a row over a table store, with buckets and log written out by hand from the rules.
#![tactic(auto)]

#[cfg(test)]
mod lent;
#[cfg(test)]
mod refusals;
#[cfg(test)]
mod requests;
#[cfg(test)]
mod setup;
