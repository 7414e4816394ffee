// The steps of a script, made in turn.
ghost use Rattle.std.specs.Prelude.{◌≡◌, ◌+◌, ◌*◌, ◌%◌, length};
ghost use Rattle.timing.specs.Script.{script_bytes};

use allocate::allocate;
use allocate_extent::allocate_extent;
use commit::commit;
use commit_cost::commit_cost;
use deallocate::deallocate;
use drop::drop;
use model_types::answer::{Answer, Counts, number};
use model_types::memory::Memory;
use precommit::precommit;
use reserve::reserve;
use revoke::revoke;
use script::{Call, four, pair};
use start::start;
use status::status;
use store::store;
use volume::format::format;
use volume::open::open;

// The steps that a script holds behind its head. It is as long as the bytes that are read. Those that a shorter input leaves are 0,
// and a step of them makes no call.
const MOST_STEPS: usize = 10920;

// A checksum with a number more.
fn mix(sum: u64, number: u32) -> u64
    ensures { result ≡ 1000003 * (sum % 4294967296) + number }
{
    1000003 * (sum % 4294967296) + u64::from(number)
}

// With status's counts but the last.
fn mix_counts(sum: u64, answer: Answer<Counts>) -> u64 {
    let Ok(counts) = answer else {
        return sum;
    };
    let sum = mix(sum, counts.allocated);
    let sum = mix(sum, counts.available);
    let sum = mix(sum, counts.allocating);
    let sum = mix(sum, counts.freeing);
    mix(sum, counts.held)
}

// The number and the value of an answer. The bench program has the same three lines: neither stands on the other.
fn printed(answer: Answer<u32>) -> (u32, u32) {
    (number(answer), answer.unwrap_or(0))
}

// Makes as many steps as the script says; behind its last one it goes on with the first one behind its set-up. It is one
// function, longer than others, so that each call is made in one place, as a client should make it (README.md, 'Embedding it').
pub(crate) fn make_steps(script: &[u8]) -> u64
    requires { length script.now ≡ script_bytes }
{
    let setup = (four(script, 0) as usize).min(MOST_STEPS - 1);
    let steps = (four(script, 4) as usize).min(MOST_STEPS);
    let made = four(script, 8);
    let mut disk = [0u32; 386];
    let mut list = [0u32; 64];
    let mut memory = Memory::zero();
    let mut sum: u64 = 0;
    let mut step = 0;
    // The step is no range: behind the last one the steps go on behind the set-up.
    for _ in 0..made {
        let at = 12 + 6 * step;
        let slot = u32::from(script[at + 1]);
        let n = pair(script, at + 2);
        let near = pair(script, at + 4);
        let (code, value) = match Call::try_from(script[at]) {
            Ok(Call::Format) => (number(format(&mut disk, n)), 0),
            Ok(Call::Open) => {
                let opened = open(&disk);
                memory = opened.memory;
                printed(opened.answer)
            }
            Ok(Call::Start) => (number(start(&mut memory, slot)), 0),
            Ok(Call::Allocate) => printed(allocate(&mut memory, slot, n, &mut list)),
            Ok(Call::AllocateExtent) => {
                printed(allocate_extent(&mut memory, slot, n, near, &mut list))
            }
            Ok(Call::Deallocate) => (number(deallocate(&mut memory, slot, n)), 0),
            Ok(Call::Precommit) => printed(precommit(&mut memory, slot)),
            Ok(Call::Commit) => printed(commit(&mut memory, slot)),
            Ok(Call::Drop) => (number(drop(&mut memory, slot)), 0),
            Ok(Call::Revoke) => printed(revoke(&mut memory, slot)),
            Ok(Call::Store) => printed(store(&mut memory, &mut disk)),
            Ok(Call::Status) => {
                let answer = status(&memory);
                sum = mix_counts(sum, answer);
                (number(answer), answer.map_or(0, |counts| counts.active))
            }
            Ok(Call::CommitCost) => printed(commit_cost(&memory, slot, n)),
            Ok(Call::Reserve) => (number(reserve(&mut memory, slot, n)), 0),
            Err(_) => (0, 0),
        };
        sum = mix(sum, code);
        sum = mix(sum, value);
        sum = mix(sum, list[((n + 63) % 64) as usize]);
        step += 1;
        if step >= steps {
            step = setup;
        }
    }
    sum
}
