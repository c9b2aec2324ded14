// What is checked of a cast that is handed in as slices, for the session and for the solver: each check says nothing or
// the fault that it found, so that checks in a row give the first.
#![tactic(auto)]

pub mod cast;
