//! Tests of the crates of the program, over their public contracts: worked examples, and what no clause says.
#![tactic(auto)]

#[cfg(test)]
mod dumps;
#[cfg(test)]
mod folders;
#[cfg(test)]
mod lists;
#[cfg(test)]
mod races;
#[cfg(test)]
mod schedules;
#[cfg(test)]
mod streams;
#[cfg(test)]
mod words;
