//! Tests of what the crates below the programs make public, and of whole runs over memory, over devices that
//! fail, and over memory that is refused.
#![tactic(auto)]

pub mod heap;
#[cfg(test)]
mod tests;
