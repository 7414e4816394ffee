// A call, made twice.
use allocate::allocate;
use allocate_extent::allocate_extent;
use commit::commit;
use commit_cost::commit_cost;
use deallocate::deallocate;
use drop::drop;
use model_types::answer::number;
use model_types::memory::{Memory, Pending, Slot, SlotState};
use precommit::precommit;
use reserve::reserve;
use revoke::revoke;
use script::Call;
use start::start;
use status::status;
use store::store;
use volume::format::format;
use volume::open::open;

// Opens slot 0, and precommits slot 1.
fn activate_two(memory: &mut Memory) {
    let tam = memory.sam;
    memory.slots[0] = Slot {
        tam,
        state: SlotState::Open,
    };
    memory.slots[1] = Slot {
        tam,
        state: SlotState::Precommitted,
    };
}

// The memory that an open of the disk gives.
fn opened(call: Call) -> Memory {
    let mut memory = Memory::zero();
    memory.blocks = 64;
    let word = if call == Call::Store { 3 } else { 1 };
    memory.sam.words[0] = word;
    memory.com.words[0] = word;
    if call == Call::Store {
        memory.pending = Pending::Recovery { done: 0, due: 2 };
    }
    memory
}

// What a call is made on: the volume on the disk opened, with two slots active unless a recovery is pending. The memory is put
// together here, since an open takes more of the stack than most calls, and what would be measured then is the open.
fn ready(call: Call) -> Memory {
    if matches!(call, Call::Format | Call::Open) {
        return Memory::zero();
    }
    let mut memory = opened(call);
    if call != Call::Store {
        activate_two(&mut memory);
    }
    memory
}

// The disk has 64 blocks with block 0 taken, and for stores a log of one entry.
fn disk_for(call: Call) -> [u32; 386] {
    let mut disk = [0; 386];
    disk[0] = 64;
    disk[1] = u32::from(call == Call::Store);
    disk[2] = 1;
    disk[131] = 3;
    disk
}

// Makes a call in a function that isn't put into its caller, and that no other call is put into.
#[inline(never)]
fn apart<F: FnOnce() -> u32>(call: F) -> u32
    requires { F.IsAlwaysCallable call }
{
    call()
}

// Makes the call twice, each apart, and returns a number made of both answers, since the compiler leaves out what nobody looks at.
pub(crate) fn make_twice(call: Call, slot: u32, n: u32) -> u32 {
    let mut disk = disk_for(call);
    let mut list = [0u32; 64];
    let mut memory = ready(call);
    let disk = &mut disk;
    let list = &mut list;
    let m = &mut memory;
    match call {
        Call::Format => apart(|| number(format(disk, n))) | apart(|| number(format(disk, n))),
        // Not apart: what it gives would be counted too. Made in two places, large as it is, it stays a function.
        Call::Open => number(open(disk).answer) | number(open(disk).answer),
        Call::Start => apart(|| number(start(m, slot))) | apart(|| number(start(m, slot))),
        Call::Allocate => {
            apart(|| number(allocate(m, slot, n, list)))
                | apart(|| number(allocate(m, slot, n, list)))
        }
        Call::AllocateExtent => {
            apart(|| number(allocate_extent(m, slot, n, n, list)))
                | apart(|| number(allocate_extent(m, slot, n, n, list)))
        }
        Call::Deallocate => {
            apart(|| number(deallocate(m, slot, n))) | apart(|| number(deallocate(m, slot, n)))
        }
        Call::Precommit => {
            apart(|| number(precommit(m, slot))) | apart(|| number(precommit(m, slot)))
        }
        Call::Commit => apart(|| number(commit(m, slot))) | apart(|| number(commit(m, slot))),
        Call::Drop => apart(|| number(drop(m, slot))) | apart(|| number(drop(m, slot))),
        Call::Revoke => apart(|| number(revoke(m, slot))) | apart(|| number(revoke(m, slot))),
        Call::Store => apart(|| number(store(m, disk))) | apart(|| number(store(m, disk))),
        Call::Status => apart(|| number(status(m))) | apart(|| number(status(m))),
        Call::CommitCost => {
            apart(|| number(commit_cost(m, slot, n))) | apart(|| number(commit_cost(m, slot, n)))
        }
        Call::Reserve => {
            apart(|| number(reserve(m, slot, n))) | apart(|| number(reserve(m, slot, n)))
        }
    }
}
