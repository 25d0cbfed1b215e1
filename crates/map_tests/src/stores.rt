//! Worked examples of the store. A row is what is asked and, beside it, what is answered.
//!
//! Operations and maps are dropped by a call of `drop`: where a scope drops one, the prover follows all its parts on each way out.
mod fronts;
mod scripts;
mod seats;
mod threads;
