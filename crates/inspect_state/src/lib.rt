// What `inspect` keeps between two lines: the memory, and the disk and the list, of which a part is lent (docs/TEST-LINES.md).
#![tactic(auto)]

pub mod fixture;
pub mod lent;
