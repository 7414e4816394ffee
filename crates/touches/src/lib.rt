// The blocks at which COM differs from SAM, and what a slot has touched taken from them.
#![tactic(auto)]

pub mod touch;
