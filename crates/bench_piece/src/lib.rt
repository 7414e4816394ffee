// A piece of the bench program's input: its lines answered, and the bytes behind the last of them kept.
#![tactic(auto)]

pub mod piece;
