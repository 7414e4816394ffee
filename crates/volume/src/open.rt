// Open: the memory of a volume, from its disk. The disk stays.
ghost use Rattle.std.specs.Prelude.{◌≡◌, ◌≤◌};
ghost use Rattle.bitmap.specs.Sizes.{bitmap_words};
ghost use Rattle.model.specs.Rules.Calls.Open.{recovery_pending, recovery_due, open_answer, open_memory};
ghost use Rattle.volume.specs.Tested.{Tested};

use bitmap::Bitmap;
use disk_log::layout::{BLOCKS_AT, DISK_WORDS, LENGTH_AT};
use disk_log::log::log_valid;
use disk_log::replay::replay;
use disk_log::sam::bitmap_valid;
use model_types::answer::{Answer, Opened};
use model_types::error::Error;
use model_types::memory::{Memory, Pending};

// The causes 2 to 5, in order; where none holds, the words of the disk.
fn tested(disk: &[u32]) -> Answer<&[u32; DISK_WORDS]>
    ensures { Tested disk.now result }
{
    let Ok(words) = <&[u32; DISK_WORDS]>::try_from(disk) else {
        return Err(Error::DiskLength);
    };
    if !Bitmap::blocks_in_range(words[BLOCKS_AT]) {
        return Err(Error::DiskBlocks);
    }
    if !bitmap_valid(words) {
        return Err(Error::DiskBitmap);
    }
    if !log_valid(words) {
        return Err(Error::DiskLog);
    }
    Ok(words)
}

// The stores that an open of a log of so many entries is due.
fn recovery_due(entries: u32) -> u32
    requires { entries ≤ bitmap_words }
    ensures { result ≡ recovery_due entries }
{
    if entries == 0 { 0 } else { entries + 1 }
}

// The pending work after an open of a log of so many entries.
fn recovery(entries: u32) -> Pending
    requires { entries ≤ bitmap_words }
    ensures { result ≡ recovery_pending entries }
{
    if entries == 0 {
        return Pending::Nothing;
    }
    let due = recovery_due(entries);
    Pending::Recovery { done: 0, due }
}

// Opens a volume: its memory has all slots idle and COM equal to SAM. Refused, it gives a memory of zeros.
pub fn open(disk: &[u32]) -> Opened
    ensures answers { result.answer ≡ open_answer disk.now }
    ensures gives { result.memory ≡ open_memory disk.now }
{
    // The memory is made once, of these: made in an arm it would be copied.
    let (answer, blocks, sam, pending) = match tested(disk) {
        Ok(words) => {
            let entries = words[LENGTH_AT];
            let sam = Bitmap {
                words: replay(words),
            };
            (
                Ok(recovery_due(entries)),
                words[BLOCKS_AT],
                sam,
                recovery(entries),
            )
        }
        Err(error) => (Err(error), 0, Bitmap::EMPTY, Pending::Nothing),
    };
    Opened {
        answer,
        memory: Memory::quiet(blocks, sam, pending),
    }
}
