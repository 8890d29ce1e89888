// What the sweeps share: digests of what they saw, and the lines that they print.
#![tactic(auto)]

pub mod digests;
pub mod lines;
pub mod states;
