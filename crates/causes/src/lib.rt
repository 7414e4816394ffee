// The causes that calls test behind those of their slot, each list in its order, and the available blocks that some of them need.
#![tactic(auto)]

pub mod blocks;
pub mod counted;
pub mod grants;
