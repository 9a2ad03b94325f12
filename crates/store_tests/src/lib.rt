// Tests of the two stores: at the edges, and side by side.
#![tactic(auto)]

#[cfg(test)]
mod calls;
#[cfg(test)]
mod edges;
#[cfg(test)]
mod together;
