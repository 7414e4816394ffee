// Store: the next store of the pending work, one word of the disk. The work ends with its last store.
#![tactic(auto)]

mod progress;
mod step;

ghost use Rattle.std.specs.Prelude.{◌≡◌};
ghost use Rattle.model.specs.Rules.Calls.Store.{store_answer, store_memory, store_disk};

use disk_log::layout::DISK_WORDS;
use model_types::answer::Answer;
use model_types::error::Error;
use model_types::memory::Memory;
use progress::advance;
use step::{matches, store_next};
use validity::check;

// Makes the next store. Refused, memory and disk stay. With a commit's last store its slot's TAM becomes SAM, and
// what the slot has drawn is used up.
pub fn store(memory: &mut Memory, disk: &mut [u32]) -> Answer<u32>
    ensures answers { result ≡ store_answer memory.old disk.old }
    ensures leaves { memory.new ≡ store_memory memory.old disk.old }
    ensures writes { disk.new ≡ store_disk memory.old disk.old }
{
    check(memory)?;
    let Some(words) = disk.as_mut_array::<DISK_WORDS>() else {
        return Err(Error::DiskLength);
    };
    if !matches(memory, words) {
        return Err(Error::DiskMismatch);
    }
    if memory.pending.is_nothing() {
        return Err(Error::NothingPending);
    }
    store_next(memory, words);
    Ok(advance(memory))
}
