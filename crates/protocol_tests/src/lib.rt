//! Tests of the crates of the protocol, over their public contracts: worked examples, and what no clause says.
#![tactic(auto)]

#[cfg(test)]
mod asked_lines;
#[cfg(test)]
mod clients;
#[cfg(test)]
mod frames;
#[cfg(test)]
mod lines;
#[cfg(test)]
mod traces;
#[cfg(test)]
mod trees;
#[cfg(test)]
mod views;
