//! Tests of the crates of the documents, over their public contracts: worked examples, and what no clause says.
#![tactic(auto)]

#[cfg(test)]
mod reports;
#[cfg(test)]
mod spiffe;
