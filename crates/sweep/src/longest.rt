// The volume that the sweep works on.
use allocate::allocate;
use bitmap::Bitmap;
use commit::commit;
use model_types::error::Error;
use model_types::memory::Memory;
use precommit::precommit;
use start::start;
use store::store;
use volume::format::format;
use volume::open::open;

// The slot that takes all blocks.
const SLOT: u32 = 0;
// The allocates that it takes them in.
const TIMES: u32 = 64;

// Takes all blocks in one slot.
fn take_all(memory: &mut Memory) -> Result<(), Error> {
    let mut list = [0u32; 64];
    for _ in 0..TIMES {
        allocate(memory, SLOT, Bitmap::COUNT, &mut list)?;
    }
    Ok(())
}

// Formats a disk, opens it and begins the commit of all its blocks: the stores due.
pub(crate) fn longest_commit(memory: &mut Memory, disk: &mut [u32]) -> Result<u32, Error> {
    format(disk, Bitmap::BLOCKS)?;
    *memory = open(disk).memory;
    start(memory, SLOT)?;
    take_all(memory)?;
    precommit(memory, SLOT)?;
    commit(memory, SLOT)
}

// Makes so many stores.
pub(crate) fn make_stores(mut memory: Memory, disk: &mut [u32], count: u32) {
    for _ in 0..count {
        let _ = store(&mut memory, disk);
    }
}
