// What the bench program keeps between two pieces of input: its state, and the bytes of a line that hasn't ended.
#![tactic(auto)]

pub mod keep;
pub mod run;
