// Extents of available blocks: where they start, which start is nearest to a block, and an extent taken.
#![tactic(auto)]

pub mod nearest;
pub mod starts;
pub mod take;
