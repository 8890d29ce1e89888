// Register accesses: readings and writes, SCTRCLR and the host's event (docs/RULES.md, R).
#![tactic(auto)]

pub mod accesses;
pub mod readings;
pub mod writes;
