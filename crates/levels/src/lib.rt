// The levels of a cast in the lent rooms: where each stands, and its labels.
#![tactic(auto)]

pub mod labels;
pub mod sides;
