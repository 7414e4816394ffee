// What the eight transaction calls, commit cost and reserve test first: whether the memory is valid, its pending work, the slot's
// number and its state.
#![tactic(auto)]

pub mod ready;
