//! Tests of the crates of the map, over their public contracts: worked examples, and what no clause says.
#![tactic(auto)]

#[cfg(test)]
mod machines;
#[cfg(test)]
mod plain_maps;
#[cfg(test)]
mod shared_maps;
#[cfg(test)]
mod stores;
