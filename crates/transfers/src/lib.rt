// Retired words, traps and trap returns: what is done when they qualify (docs/RULES.md, Q).
#![tactic(auto)]

pub mod counts;
pub mod decisions;
pub mod records;
