// The cast in code.
#![tactic(auto)]

pub mod entry;
pub mod interior;
pub mod near;
pub mod place;
