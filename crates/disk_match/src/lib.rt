// A disk compared with SAM and the stores of the pending work.
#![tactic(auto)]

pub mod head;
pub mod matching;
pub mod recovery;
pub mod written;
