//! Tests of the crates of the server, over their public contracts: worked examples, and what no clause says.
#![tactic(auto)]

#[cfg(test)]
mod arrivals;
#[cfg(test)]
mod lasting;
