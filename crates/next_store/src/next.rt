// The next store of the pending work: which word, and its new contents.
ghost use Rattle.std.specs.Prelude.{◌≡◌, ◌+◌, ◌*◌, ◌≤◌, ◌<◌, length};
ghost use Rattle.model.specs.Rules.Sizes.{log_at};
ghost use Rattle.model_types.specs.Pending.{stores_for};
ghost use Rattle.model.specs.Rules.Stores.{changes, commit_stores, checkpoint_stores};
ghost use Rattle.model.specs.Rules.Disk.{log_length, log_entries};
ghost use Rattle.disk_log.specs.Given.{Logged};
ghost use Rattle.next_store.specs.Next.{IsChange, IsNext};

use disk_log::layout::{BITMAP_AT, DISK_WORDS, LENGTH_AT, LOG_AT};
use disk_log::log::entries;
use disk_log::phase::Phase;

// One word of the disk and its new contents.
#[derive(Clone, Copy)]
pub struct Store {
    pub place: usize,
    pub value: u32,
}

// The last store of all: word 1 becomes 0.
const CLOSING: Store = Store {
    place: LENGTH_AT,
    value: 0,
};

// The changed word i: its number and its new contents. There is one: the loop ends before its end.
fn changed_word(old: &[u32; 128], new: &[u32; 128], i: usize) -> (usize, u32)
    requires i_in_bounds { i < length (changes old.now new.now) }
    ensures { IsChange old.now new.now i result.0 result.1 }
{
    let mut left = i;
    for (k, (was, will)) in old.iter().zip(new).enumerate() {
        if *was != *will {
            if left == 0 {
                return (k, *will);
            }
            left -= 1;
        }
    }
    (0, 0)
}

// What the log's word number `done` is: an entry's number, or its contents.
fn log_word(old: &[u32; 128], new: &[u32; 128], done: usize) -> u32
    requires done_bound { done < 2 * length (changes old.now new.now) }
    ensures { IsNext (commit_stores (changes old.now new.now)) done (log_at + done) result }
{
    let (number, contents) = changed_word(old, new, done / 2);
    if done % 2 == 0 {
        number as u32
    } else {
        contents
    }
}

// The next store of a commit from one SAM to the next.
#[tactic(auto, using(crate::proofs::Laws::NextOfCommit::point_next, crate::proofs::Laws::NextOfCommit::word_next, crate::proofs::Laws::NextOfCommit::last_next, disk_log::proofs::Laws::Given::changed_few))]
pub fn commit_next(old: &[u32; 128], new: &[u32; 128], changed: usize, done: usize) -> Store
    requires changed_is { changed ≡ length (changes old.now new.now) }
    requires done_bound { done < stores_for changed }
    ensures { IsNext (commit_stores (changes old.now new.now)) done result.place result.value }
{
    let phase = Phase::after(changed, done);
    match phase {
        Phase::Log => {
            let word = log_word(old, new, done);
            Store {
                place: LOG_AT + done,
                value: word,
            }
        }
        Phase::Point => Store {
            place: LENGTH_AT,
            value: changed as u32,
        },
        Phase::Word(i) => {
            let (number, contents) = changed_word(old, new, i);
            Store {
                place: BITMAP_AT + number,
                value: contents,
            }
        }
        Phase::Closing => CLOSING,
    }
}

// The next store of a recovery, from the disk's own log.
pub fn recovery_next(disk: &[u32; DISK_WORDS], done: usize) -> Store
    requires logged { Logged disk.now }
    requires done_bound { done ≤ log_length disk.now }
    ensures { IsNext (checkpoint_stores (log_entries disk.now)) done result.place result.value }
{
    match entries(disk).get(done) {
        Some(&[number, contents]) => Store {
            place: BITMAP_AT + number as usize,
            value: contents,
        },
        None => CLOSING,
    }
}
