// The call that a bench line asks for, on what `inspect` lends.
#![tactic(auto)]

use allocate::allocate;
use commit::commit;
use deallocate::deallocate;
use drop::drop;
use inspect_state::fixture::Fixture;
use model_types::error::Error;
use model_types::line::{Line, Op};
use model_types::memory::Memory;
use precommit::precommit;
use revoke::revoke;
use start::start;
use status::status;
use store::store;
use volume::format::format;
use volume::open::open;

// The memory that an open gives takes the place of the old one, when refused too.
fn reopen(memory: &mut Memory, disk: &[u32]) -> Result<u32, Error> {
    let opened = open(disk);
    *memory = opened.memory;
    opened.answer
}

// A crash puts the memory of zeros back.
fn crash(memory: &mut Memory) -> Result<u32, Error> {
    *memory = Memory::zero();
    Ok(0)
}

// Makes the call of a line, on the words that are lent, and answers its value. The list keeps what an allocate wrote.
pub fn call(line: Line, fixture: &mut Fixture) -> Result<u32, Error> {
    let slot = line.slot;
    let n = line.n;
    let memory = &mut fixture.memory;
    let disk = fixture.disk.as_mut_slice();
    let list = fixture.list.as_mut_slice();
    match line.op {
        Op::Format => format(disk, n).map(|_| 0),
        Op::Open => reopen(memory, disk),
        Op::Start => start(memory, slot).map(|_| 0),
        Op::Allocate => allocate(memory, slot, n, list),
        Op::Deallocate => deallocate(memory, slot, n).map(|_| 0),
        Op::Precommit => precommit(memory, slot),
        Op::Commit => commit(memory, slot),
        Op::Drop => drop(memory, slot).map(|_| 0),
        Op::Revoke => revoke(memory, slot),
        Op::Store => store(memory, disk),
        Op::Status => status(memory).map(|counts| counts.allocated),
        Op::Crash => crash(memory),
    }
}
