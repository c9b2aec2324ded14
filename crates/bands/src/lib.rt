// The cells that are smoothed on each level, and the rest of its air: which they are, and their lists in the lent room
// of words.
#![tactic(auto)]

pub mod band;
pub mod lists;
