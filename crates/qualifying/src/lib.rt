// When a transfer qualifies: which mode changes are possible, what the control registers say of a
// transfer, and what comes of it (docs/RULES.md, Q).
#![tactic(auto)]

pub mod changes;
pub mod filters;
pub mod outcomes;
