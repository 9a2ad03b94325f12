// Examples of the tree's calls that a reader would try, each written out by hand from the rules.
#![tactic(auto)]

#[cfg(test)]
mod blocks;
#[cfg(test)]
mod paths;
