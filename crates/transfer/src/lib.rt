// What the transfers between two levels in binary64 share: a row of sums, and the weights; and the laws of both.
#![tactic(auto)]

pub mod rows;
pub mod weights;
