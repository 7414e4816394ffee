// What is reserved for the slots: added up, and changed by a grant, by a rollback and by a commit's end.
#![tactic(auto)]

pub mod change;
pub mod sums;
