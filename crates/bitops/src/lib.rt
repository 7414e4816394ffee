// Code on the words of bitmaps: single blocks, and whole bitmaps combined and compared.
#![tactic(auto)]

pub mod block;
pub mod combine;
pub mod compare;
